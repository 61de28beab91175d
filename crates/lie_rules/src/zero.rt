// The rule for an equation `f = 0`.
ghost use Rattle.std.specs.Prelude.{◌≡◌, ◌<◌, length, MatchOption, IfOk, IfErr, OnOk, OnErr};
ghost use Rattle.lie_systems.specs.Works.{IsWorkWithin};
ghost use Rattle.lie_steps.specs.Rules.{Zero};
ghost use Rattle.lie_steps.specs.Zero.{IsZeroAt, AppliesZero, AfterZero};
ghost use Rattle.lie_tables.specs.Tables.{Follows, IsIndexOf};
ghost use Rattle.lie_normal.specs.WorkCauses.{IsWorkCause};
ghost use Rattle.lie_change.specs.Tested.{IsTested};
ghost use Rattle.lie_change.specs.Tried.{at, IsTried, TryMakes};

use crate::alone::sole_derivative;
use crate::equations::equation_at;
use crate::known::system_is_valid;
use lie_change::eliminate;
use lie_jet::order_of_derivative;
use lie_lin::{LinEq, LinSystem};
use lie_ring::{PolyFail, Ring, Whole};
use lie_tables::Tables;
use std::alloc::Global;

/// Tries the rule for an equation `f = 0`: the unknown is replaced by 0, and it goes with the equation. True where that was done,
/// and false where the equation is another.
///
/// `Past` comes exactly where a replaced form, or what is left, is past a limit. After an error the system is as it was.
pub fn try_zero(system: &mut LinSystem, alloc: Global, place: usize) -> Result<bool, PolyFail>
    requires { place < length system.old.system.equations }
    ensures tried { IfOk result (IsTried Zero (at place) system.old system.new) }
    ensures fits { OnOk result (IsWorkWithin (TryMakes Zero system.old.system (at place))) }
    ensures past { IfErr result (λ fail. IsWorkCause fail (TryMakes Zero system.old.system (at place))) }
    ensures kept { OnErr result (system.new ≡ system.old) }
{
    let mut tables = Tables::none(alloc);
    try_zero_with(system, &mut tables, alloc, place)
}

/// The same, and tables of the equations, where they are kept, follow the system.
pub fn try_zero_with(
    system: &mut LinSystem,
    tables: &mut Tables,
    alloc: Global,
    place: usize,
) -> Result<bool, PolyFail>
    requires place { place < length system.old.system.equations }
    requires indexed { IsIndexOf tables.old system.old.system.equations }
    ensures tried { IfOk result (IsTried Zero (at place) system.old system.new) }
    ensures fits { OnOk result (IsWorkWithin (TryMakes Zero system.old.system (at place))) }
    ensures past { IfErr result (λ fail. IsWorkCause fail (TryMakes Zero system.old.system (at place))) }
    ensures kept { OnErr result (system.new ≡ system.old) }
    ensures indexed { Follows tables.old tables.new system.new.system.equations }
{
    match zero_at(system, place) {
        None => Ok(false),
        Some(number) => {
            replace_by_zero(system, tables, alloc, place, number)?;
            Ok(true)
        }
    }
}

/// Whether the rule for an equation `f = 0` applies at a place.
pub fn zero_applies(system: &LinSystem, place: usize) -> bool
    requires { place < length system.now.system.equations }
    ensures { IsTested Zero (at place) system.now.system result }
{
    zero_at(system, place).is_some()
}

/// The unknown of which the equation at a place says that it is 0.
fn zero_at(system: &LinSystem, place: usize) -> Option<u32>
    requires { place < length system.now.system.equations }
    ensures { MatchOption result (¬ (AppliesZero system.now.system place)) (IsZeroAt system.now.system place) }
{
    let der = sole_derivative(equation_at(system, place))?;
    if order_of_derivative(&der) != 0 {
        return None;
    }
    Some(der.unknown)
}

/// Replaces the unknown of which the equation at a place says that it is 0.
fn replace_by_zero(
    system: &mut LinSystem,
    tables: &mut Tables,
    alloc: Global,
    place: usize,
    number: u32,
) -> Result<(), PolyFail>
    requires is { IsZeroAt system.old.system place number }
    requires indexed { IsIndexOf tables.old system.old.system.equations }
    ensures after { OnOk result (AfterZero system.old.system place system.new.system) }
    ensures space { system.new.space ≡ system.old.space }
    ensures fits { OnOk result (IsWorkWithin (TryMakes Zero system.old.system (at place))) }
    ensures past { IfErr result (λ fail. IsWorkCause fail (TryMakes Zero system.old.system (at place))) }
    ensures kept { OnErr result (system.new ≡ system.old) }
    ensures indexed { Follows tables.old tables.new system.new.system.equations }
{
    system_is_valid(system);
    let nothing = LinEq::of_terms(Vec::new(alloc));
    eliminate(
        system,
        tables,
        alloc,
        place,
        number,
        &nothing,
        Whole::one(),
        &[],
    )
}
