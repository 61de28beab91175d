// The rule for an equation that says that a derivative of an unknown is 0.
ghost use Rattle.std.specs.Prelude.{◌≡◌, ◌<◌, length, MatchOption, IfOk, IfErr, OnOk, OnErr};
ghost use Rattle.std.specs.List.{AllByRecursion as Every};
ghost use Rattle.lie_systems.specs.Works.{IsWorkWithin};
ghost use Rattle.lie_jet.specs.Derivatives.{derivative_of};
ghost use Rattle.lie_lin.specs.Systems.{unknown_of};
ghost use Rattle.lie_steps.specs.Rules.{Absent};
ghost use Rattle.lie_steps.specs.Absent.{IsAbsentAt, AppliesAbsent, AfterAbsent, low_powers};
ghost use Rattle.lie_tables.specs.Tables.{Follows, IsIndexOf};
ghost use Rattle.lie_normal.specs.WorkCauses.{IsWorkCause};
ghost use Rattle.lie_change.specs.Tested.{IsTested};
ghost use Rattle.lie_change.specs.Tried.{at, IsTried, TryMakes};

use crate::alone::sole_derivative;
use crate::equations::equation_at;
use crate::fresh::{Power, fresh_sum, fresh_unknowns, push_powers};
use crate::known::system_is_valid;
use crate::unknowns::unknown_with;
use lie_bytes::NoMemory;
use lie_change::eliminate;
use lie_jet::{Der, order_of_derivative};
use lie_lin::{LinSystem, Unknown};
use lie_ring::{PolyFail, Ring, Whole};
use lie_tables::Tables;
use std::alloc::Global;

/// Tries the rule for an equation that says that a derivative of an unknown is 0: the unknown is replaced by the sum of the lower
/// powers of the variables, each times a fresh unknown that does not depend on the variable, and it goes with the equation. True
/// where that was done, and false where the equation is another.
///
/// `Past` comes exactly where a fresh number, a replaced form, or what is left, is past a limit. After an error the system is as it
/// was.
pub fn try_absent(system: &mut LinSystem, alloc: Global, place: usize) -> Result<bool, PolyFail>
    requires { place < length system.old.system.equations }
    ensures tried { IfOk result (IsTried Absent (at place) system.old system.new) }
    ensures fits { OnOk result (IsWorkWithin (TryMakes Absent system.old.system (at place))) }
    ensures past { IfErr result (λ fail. IsWorkCause fail (TryMakes Absent system.old.system (at place))) }
    ensures kept { OnErr result (system.new ≡ system.old) }
{
    let mut tables = Tables::none(alloc);
    try_absent_with(system, &mut tables, alloc, place)
}

/// The same, and tables of the equations, where they are kept, follow the system.
pub fn try_absent_with(
    system: &mut LinSystem,
    tables: &mut Tables,
    alloc: Global,
    place: usize,
) -> Result<bool, PolyFail>
    requires place { place < length system.old.system.equations }
    requires indexed { IsIndexOf tables.old system.old.system.equations }
    ensures tried { IfOk result (IsTried Absent (at place) system.old system.new) }
    ensures fits { OnOk result (IsWorkWithin (TryMakes Absent system.old.system (at place))) }
    ensures past { IfErr result (λ fail. IsWorkCause fail (TryMakes Absent system.old.system (at place))) }
    ensures kept { OnErr result (system.new ≡ system.old) }
    ensures indexed { Follows tables.old tables.new system.new.system.equations }
{
    match absent_at(system, place) {
        None => Ok(false),
        Some((unknown, der)) => {
            replace_by_powers(system, tables, alloc, place, &unknown, &der)?;
            Ok(true)
        }
    }
}

/// Whether the rule for a derivative that is 0 applies at a place.
pub fn absent_applies(system: &LinSystem, place: usize) -> bool
    requires { place < length system.now.system.equations }
    ensures { IsTested Absent (at place) system.now.system result }
{
    absent_at(system, place).is_some()
}

/// The unknown, and its derivative, of which the equation at a place says that it is 0.
fn absent_at(system: &LinSystem, place: usize) -> Option<(Unknown, Der)>
    requires { place < length system.now.system.equations }
    ensures { MatchOption result (¬ (AppliesAbsent system.now.system place))
        (λ found. IsAbsentAt system.now.system place (unknown_of found.0) (derivative_of found.1)) }
{
    let der = sole_derivative(equation_at(system, place))?;
    if order_of_derivative(&der) == 0 {
        return None;
    }
    let unknown = unknown_with(system.unknowns(), der.unknown)?;
    Some((unknown, der))
}

/// For each variable in order the powers below the count of a derivative.
fn low_powers(alloc: Global, der: &Der) -> Result<Vec<Power>, NoMemory>
    ensures powers { IfOk result (λ powers. powers.items ≡ low_powers (derivative_of der.now).counts) }
    ensures within { IfOk result (λ powers. Every (λ c. c.0 < 8) powers.items) }
{
    let mut powers = Vec::new(alloc);
    for var in 0..8u8 {
        push_powers(&mut powers, var, der.counts[usize::from(var)])?;
    }
    Ok(powers)
}

/// Replaces the unknown by the sum of the lower powers times fresh unknowns.
fn replace_by_powers(
    system: &mut LinSystem,
    tables: &mut Tables,
    alloc: Global,
    place: usize,
    unknown: &Unknown,
    der: &Der,
) -> Result<(), PolyFail>
    requires is { IsAbsentAt system.old.system place (unknown_of unknown.now) (derivative_of der.now) }
    requires indexed { IsIndexOf tables.old system.old.system.equations }
    ensures after { OnOk result (AfterAbsent system.old.system place system.new.system) }
    ensures space { system.new.space ≡ system.old.space }
    ensures fits { OnOk result (IsWorkWithin (TryMakes Absent system.old.system (at place))) }
    ensures past { IfErr result (λ fail. IsWorkCause fail (TryMakes Absent system.old.system (at place))) }
    ensures kept { OnErr result (system.new ≡ system.old) }
    ensures indexed { Follows tables.old tables.new system.new.system.equations }
{
    system_is_valid(system);
    let next = system.next();
    let powers = low_powers(alloc, der)?;
    let fresh = fresh_unknowns(alloc, next, unknown, powers.as_slice())?;
    let sum = fresh_sum(alloc, next, powers.as_slice())?;
    eliminate(
        system,
        tables,
        alloc,
        place,
        unknown.number,
        &sum,
        Whole::one(),
        fresh.as_slice(),
    )
}
