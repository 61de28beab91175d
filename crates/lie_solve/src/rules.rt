// The ten rules by their names, tried at a place.
ghost use Rattle.std.specs.Prelude.{◌≡◌, ◌<◌, length, IfOk, IfErr, OnOk, OnErr};
ghost use Rattle.lie_systems.specs.Works.{IsWorkWithin};
ghost use Rattle.lie_steps.specs.Rules.{Cross, Tries};
ghost use Rattle.lie_tables.specs.Tables.{Follows, IsIndexOf};
ghost use Rattle.lie_normal.specs.WorkCauses.{IsWorkCause};
ghost use Rattle.lie_change.specs.Tested.{IsTested};
ghost use Rattle.lie_change.specs.Tried.{at, IsTried, TryMakes};
ghost use Rattle.lie_solve.specs.Places.{IsPlaceOf};
ghost use Rattle.lie_solve.specs.RuleNames.{rule_of, place_of};

use lie_cross::{
    cross_applies, foreign_applies, isolate_applies, reduce_applies_with, try_cross_with,
    try_foreign_with, try_isolate_with, try_reduce_with,
};
use lie_lin::LinSystem;
use lie_ring::PolyFail;
use lie_rules::{
    absent_applies, integrate_applies, lowest_applies, split_applies, substitute_applies,
    try_absent_with, try_integrate_with, try_lowest_with, try_split_with, try_substitute_with,
    try_zero_with, zero_applies,
};
use lie_tables::Tables;
use std::alloc::Global;

/// The rules, in the order in which they are tried.
#[derive(Clone, Copy, PartialEq, Eq, Debug)]
pub enum RuleName {
    /// An unknown that is 0 is replaced.
    Zero,
    /// An equation with constant coefficients becomes its lowest derivative.
    Lowest,
    /// An unknown of which a derivative is 0 becomes a sum of powers.
    Absent,
    /// An equation is split by the powers of a variable on which none of its unknowns depends.
    Split,
    /// An unknown for which an equation is solved is replaced.
    Substitute,
    /// An unknown for whose derivative an equation is solved is replaced by the integral.
    Integrate,
    /// A derivative is isolated in the derivatives of an equation.
    Isolate,
    /// An equation is replaced by its normal form by the others.
    Reduce,
    /// An equation is derived by a variable on which its lead does not depend.
    Foreign,
    /// Two equations with leads of one unknown are combined.
    Cross,
}

/// Where a rule looks at a system: at the equation `first`, with 0 as `second`; or at the equations `first` and `second`.
#[derive(Clone, Copy, PartialEq, Eq, Debug)]
pub struct Place {
    /// The place of the equation, or of the first one.
    pub first: usize,
    /// The place of the second equation, for a rule that looks at two.
    pub second: usize,
}

/// Tries a rule at a place. True where it applies, and its step was made; false where it does not apply.
///
/// `Past` comes exactly where an action of the test, or of the step, is past a limit. After an error the system is as it was.
pub fn try_rule(
    system: &mut LinSystem,
    alloc: Global,
    rule: RuleName,
    place: Place,
) -> Result<bool, PolyFail>
    requires { IsPlaceOf (rule_of rule) system.old.system (place_of place) }
    ensures tried { IfOk result (IsTried (rule_of rule) (place_of place) system.old system.new) }
    ensures fits { OnOk result (IsWorkWithin (TryMakes (rule_of rule) system.old.system (place_of place))) }
    ensures past { IfErr result (λ fail. IsWorkCause fail (TryMakes (rule_of rule) system.old.system (place_of place))) }
    ensures kept { OnErr result (system.new ≡ system.old) }
{
    let mut tables = Tables::none(alloc);
    try_rule_with(system, &mut tables, alloc, rule, place)
}

/// The same, and tables of the equations, where they are kept, follow the system.
pub fn try_rule_with(
    system: &mut LinSystem,
    tables: &mut Tables,
    alloc: Global,
    rule: RuleName,
    place: Place,
) -> Result<bool, PolyFail>
    requires place { IsPlaceOf (rule_of rule) system.old.system (place_of place) }
    requires indexed { IsIndexOf tables.old system.old.system.equations }
    ensures tried { IfOk result (IsTried (rule_of rule) (place_of place) system.old system.new) }
    ensures fits { OnOk result (IsWorkWithin (TryMakes (rule_of rule) system.old.system (place_of place))) }
    ensures past { IfErr result (λ fail. IsWorkCause fail (TryMakes (rule_of rule) system.old.system (place_of place))) }
    ensures kept { OnErr result (system.new ≡ system.old) }
    ensures indexed { Follows tables.old tables.new system.new.system.equations }
{
    match rule {
        RuleName::Cross => try_cross_with(system, tables, alloc, place.first, place.second),
        _ => try_at_one(system, tables, alloc, rule, place.first),
    }
}

/// Tries a rule that looks at one equation.
fn try_at_one(
    system: &mut LinSystem,
    tables: &mut Tables,
    alloc: Global,
    rule: RuleName,
    place: usize,
) -> Result<bool, PolyFail>
    requires rule { ¬ (rule_of rule ≡ Cross) }
    requires place { place < length system.old.system.equations }
    requires indexed { IsIndexOf tables.old system.old.system.equations }
    ensures tried { IfOk result (IsTried (rule_of rule) (at place) system.old system.new) }
    ensures fits { OnOk result (IsWorkWithin (TryMakes (rule_of rule) system.old.system (at place))) }
    ensures past { IfErr result (λ fail. IsWorkCause fail (TryMakes (rule_of rule) system.old.system (at place))) }
    ensures kept { OnErr result (system.new ≡ system.old) }
    ensures indexed { Follows tables.old tables.new system.new.system.equations }
{
    match rule {
        RuleName::Zero => try_zero_with(system, tables, alloc, place),
        RuleName::Lowest => try_lowest_with(system, tables, alloc, place),
        RuleName::Absent => try_absent_with(system, tables, alloc, place),
        RuleName::Split => try_split_with(system, tables, alloc, place),
        RuleName::Substitute => try_substitute_with(system, tables, alloc, place),
        RuleName::Integrate => try_integrate_with(system, tables, alloc, place),
        RuleName::Isolate => try_isolate_with(system, tables, alloc, place),
        RuleName::Reduce => try_reduce_with(system, tables, alloc, place),
        RuleName::Foreign => try_foreign_with(system, tables, alloc, place),
        RuleName::Cross => unreachable!(),
    }
}

/// Whether a rule applies at a place. Tables of the equations, where they are kept, tell which ones reduce looks at.
///
/// `Past` comes exactly where an action of the test is past a limit.
pub fn applies(
    system: &LinSystem,
    tables: &Tables,
    alloc: Global,
    rule: RuleName,
    place: Place,
) -> Result<bool, PolyFail>
    requires place { IsPlaceOf (rule_of rule) system.now.system (place_of place) }
    requires indexed { IsIndexOf tables.now system.now.system.equations }
    ensures tested { IfOk result (IsTested (rule_of rule) (place_of place) system.now.system) }
    ensures fits { OnOk result (IsWorkWithin (Tries (rule_of rule) system.now.system (place_of place))) }
    ensures past { IfErr result (λ fail. IsWorkCause fail (Tries (rule_of rule) system.now.system (place_of place))) }
{
    match rule {
        RuleName::Cross => cross_applies(system, alloc, place.first, place.second),
        _ => applies_at_one(system, tables, alloc, rule, place.first),
    }
}

/// Whether a rule that looks at one equation applies.
fn applies_at_one(
    system: &LinSystem,
    tables: &Tables,
    alloc: Global,
    rule: RuleName,
    place: usize,
) -> Result<bool, PolyFail>
    requires rule { ¬ (rule_of rule ≡ Cross) }
    requires place { place < length system.now.system.equations }
    requires indexed { IsIndexOf tables.now system.now.system.equations }
    ensures tested { IfOk result (IsTested (rule_of rule) (at place) system.now.system) }
    ensures fits { OnOk result (IsWorkWithin (Tries (rule_of rule) system.now.system (at place))) }
    ensures past { IfErr result (λ fail. IsWorkCause fail (Tries (rule_of rule) system.now.system (at place))) }
{
    match rule {
        RuleName::Zero => Ok(zero_applies(system, place)),
        RuleName::Lowest => Ok(lowest_applies(system, alloc, place)?),
        RuleName::Absent => Ok(absent_applies(system, place)),
        RuleName::Split => Ok(split_applies(system, alloc, place)?),
        RuleName::Substitute => Ok(substitute_applies(system, alloc, place)?),
        RuleName::Integrate => Ok(integrate_applies(system, alloc, place)?),
        RuleName::Isolate => isolate_applies(system, alloc, place),
        RuleName::Reduce => Ok(reduce_applies_with(system, tables, place)),
        RuleName::Foreign => foreign_applies(system, alloc, place),
        RuleName::Cross => unreachable!(),
    }
}
