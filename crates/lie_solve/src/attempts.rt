// What is done with a rule at a place.
ghost use Rattle.std.specs.Prelude.{◌≡◌, IfOk, IfErr, OnOk, OnErr};
ghost use Rattle.lie_systems.specs.Works.{IsWorkWithin};
ghost use Rattle.lie_tables.specs.Tables.{Follows, IsIndexOf};
ghost use Rattle.lie_normal.specs.WorkCauses.{IsWorkCause};
ghost use Rattle.lie_solve.specs.Attempts.{IsAttempted, AttemptMakes};
ghost use Rattle.lie_solve.specs.Places.{IsPlaceOf};
ghost use Rattle.lie_solve.specs.RuleNames.{rule_of, place_of};

use crate::rules::{Place, RuleName, applies, try_rule_with};
use lie_lin::LinSystem;
use lie_ring::PolyFail;
use lie_tables::Tables;
use std::alloc::Global;

/// What is done with a rule.
#[derive(Clone, Copy, PartialEq, Eq, Debug)]
pub enum Attempt {
    /// Where it applies, its step is made.
    Step,
    /// It is told whether it applies.
    Test,
}

/// Makes the attempt with a rule at a place. True exactly where the rule applies.
///
/// `Past` comes exactly where an action of the attempt is past a limit. After an error the system is as it was.
pub fn attempt_at(
    system: &mut LinSystem,
    tables: &mut Tables,
    alloc: Global,
    attempt: Attempt,
    rule: RuleName,
    place: Place,
) -> Result<bool, PolyFail>
    requires place { IsPlaceOf (rule_of rule) system.old.system (place_of place) }
    requires indexed { IsIndexOf tables.old system.old.system.equations }
    ensures attempted { IfOk result (IsAttempted attempt (rule_of rule) (place_of place) system.old system.new) }
    ensures fits { OnOk result (IsWorkWithin (AttemptMakes attempt (rule_of rule) system.old.system (place_of place))) }
    ensures past { IfErr result (λ fail. IsWorkCause fail (AttemptMakes attempt (rule_of rule) system.old.system (place_of place))) }
    ensures kept { OnErr result (system.new ≡ system.old) }
    ensures indexed { Follows tables.old tables.new system.new.system.equations }
{
    match attempt {
        Attempt::Step => try_rule_with(system, tables, alloc, rule, place),
        Attempt::Test => applies(system, tables, alloc, rule, place),
    }
}
