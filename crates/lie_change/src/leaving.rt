// What the elimination of an unknown leaves of a system.
ghost use Rattle.std.specs.Prelude.{◌≡◌, ◌+◌, ◌++◌, false, IfErr, OnOk, OnErr};
ghost use Rattle.std.specs.List.{AllByRecursion as Every};
ghost use Rattle.lie_systems.specs.Works.{IsWorkWithin};
ghost use Rattle.lie_lin.specs.Systems.{system_of};
ghost use Rattle.lie_steps.specs.Equations.{mentions};
ghost use Rattle.lie_steps.specs.Tidying.{IsTidySystem};
ghost use Rattle.lie_normal.specs.WorkCauses.{IsWorkCause};
ghost use Rattle.lie_tables.specs.Tables.{Follows, IsIndexOf};
ghost use Rattle.lie_change.specs.Ends.{EndMakes, StaysValid};
ghost use Rattle.lie_change.specs.Lists.{unmentioned};

use crate::putting::put_for_unknown;
use lie_lin::{LinEq, LinSystem, Unknown};
use lie_ring::PolyFail;
use lie_tables::Tables;
use std::alloc::Global;

/// The system with other unknowns and another number above theirs: its equations without an unknown and those of forms, tidied.
/// The general forms stay.
pub fn leave_general(
    system: &mut LinSystem,
    tables: &mut Tables,
    alloc: Global,
    number: u32,
    forms: &[LinEq],
    unknowns: Vec<Unknown>,
    next: u32,
) -> Result<(), PolyFail>
    requires free { Every (λ E. mentions number E ≡ false) forms.now }
    requires valid { StaysValid (system.old.space.p + system.old.space.q) (system_of unknowns.items
        (unmentioned number system.old.system.equations ++ forms.now) system.old.system.general next) }
    requires indexed { IsIndexOf tables.old system.old.system.equations }
    ensures tidied { OnOk result (IsTidySystem (system_of unknowns.items
        (unmentioned number system.old.system.equations ++ forms.now) system.old.system.general next) system.new.system) }
    ensures space { system.new.space ≡ system.old.space }
    ensures fits { OnOk result (IsWorkWithin (EndMakes (system_of unknowns.items
        (unmentioned number system.old.system.equations ++ forms.now) system.old.system.general next))) }
    ensures past { IfErr result (λ fail. IsWorkCause fail (EndMakes (system_of unknowns.items
        (unmentioned number system.old.system.equations ++ forms.now) system.old.system.general next))) }
    ensures kept { OnErr result (system.new ≡ system.old) }
    ensures indexed { Follows tables.old tables.new system.new.system.equations }
{
    system.space();
    let mut equations = system.take_equations(alloc);
    match put_for_unknown(
        &mut equations,
        tables,
        alloc,
        number,
        forms,
        system.general(),
    ) {
        Ok(()) => {
            system.set_unknowns(unknowns, next);
            system.set_equations(equations);
            Ok(())
        }
        Err(fail) => {
            system.set_equations(equations);
            Err(fail)
        }
    }
}

/// The same with other general forms.
pub fn leave_all(
    system: &mut LinSystem,
    tables: &mut Tables,
    alloc: Global,
    number: u32,
    forms: &[LinEq],
    unknowns: Vec<Unknown>,
    general: Vec<LinEq>,
    next: u32,
) -> Result<(), PolyFail>
    requires free { Every (λ E. mentions number E ≡ false) forms.now }
    requires valid { StaysValid (system.old.space.p + system.old.space.q) (system_of unknowns.items
        (unmentioned number system.old.system.equations ++ forms.now) general.items next) }
    requires indexed { IsIndexOf tables.old system.old.system.equations }
    ensures tidied { OnOk result (IsTidySystem (system_of unknowns.items
        (unmentioned number system.old.system.equations ++ forms.now) general.items next) system.new.system) }
    ensures space { system.new.space ≡ system.old.space }
    ensures fits { OnOk result (IsWorkWithin (EndMakes (system_of unknowns.items
        (unmentioned number system.old.system.equations ++ forms.now) general.items next))) }
    ensures past { IfErr result (λ fail. IsWorkCause fail (EndMakes (system_of unknowns.items
        (unmentioned number system.old.system.equations ++ forms.now) general.items next))) }
    ensures kept { OnErr result (system.new ≡ system.old) }
    ensures indexed { Follows tables.old tables.new system.new.system.equations }
{
    let space = system.space();
    let mut equations = system.take_equations(alloc);
    match put_for_unknown(
        &mut equations,
        tables,
        alloc,
        number,
        forms,
        general.as_slice(),
    ) {
        Ok(()) => {
            *system = LinSystem::new(space, unknowns, equations, general, next);
            Ok(())
        }
        Err(fail) => {
            system.set_equations(equations);
            Err(fail)
        }
    }
}
