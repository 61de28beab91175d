// The rule for a variable in the coefficients of an equation on which none of its unknowns depends.
ghost use Rattle.std.specs.Prelude.{◌≡◌, ◌<◌, ◌↔◌, length, map, MatchOption, IsTrue, IfOk, IfErr, OnOk, OnErr};
ghost use Rattle.lie_systems.specs.Works.{IsWorkWithin};
ghost use Rattle.lie_lin.specs.Systems.{unknown_of};
ghost use Rattle.lie_steps.specs.Equations.{IsIndependent};
ghost use Rattle.lie_steps.specs.Rules.{Split};
ghost use Rattle.lie_steps.specs.Split.{IsSplitBy, IsSplitAt, AppliesSplit, AfterSplit};
ghost use Rattle.lie_tables.specs.Tables.{Follows, IsIndexOf};
ghost use Rattle.lie_normal.specs.WorkCauses.{IsWorkCause};
ghost use Rattle.lie_change.specs.Tested.{IsTested};
ghost use Rattle.lie_change.specs.Tried.{at, IsTried, TryMakes};

use crate::equations::equation_at;
use crate::known::system_is_valid;
use crate::powers::{coefficients_of_powers, form_degree};
use lie_bytes::NoMemory;
use lie_change::exchange_forms;
use lie_jet::space_is_small;
use lie_lin::{LinEq, LinSystem, Unknown};
use lie_normal::depends;
use lie_ring::PolyFail;
use lie_tables::Tables;
use std::alloc::Global;

/// Tries the rule for a variable that occurs in a coefficient of an equation and on which none of its unknowns depends: with the
/// first such variable the equation is replaced by the coefficients of its powers. True where that was done, and false where there
/// is no such variable.
///
/// `Past` comes exactly where one of these coefficients, or what is left, is past a limit. After an error the system is as it was.
pub fn try_split(system: &mut LinSystem, alloc: Global, place: usize) -> Result<bool, PolyFail>
    requires { place < length system.old.system.equations }
    ensures tried { IfOk result (IsTried Split (at place) system.old system.new) }
    ensures fits { OnOk result (IsWorkWithin (TryMakes Split system.old.system (at place))) }
    ensures past { IfErr result (λ fail. IsWorkCause fail (TryMakes Split system.old.system (at place))) }
    ensures kept { OnErr result (system.new ≡ system.old) }
{
    let mut tables = Tables::none(alloc);
    try_split_with(system, &mut tables, alloc, place)
}

/// The same, and tables of the equations, where they are kept, follow the system.
pub fn try_split_with(
    system: &mut LinSystem,
    tables: &mut Tables,
    alloc: Global,
    place: usize,
) -> Result<bool, PolyFail>
    requires place { place < length system.old.system.equations }
    requires indexed { IsIndexOf tables.old system.old.system.equations }
    ensures tried { IfOk result (IsTried Split (at place) system.old system.new) }
    ensures fits { OnOk result (IsWorkWithin (TryMakes Split system.old.system (at place))) }
    ensures past { IfErr result (λ fail. IsWorkCause fail (TryMakes Split system.old.system (at place))) }
    ensures kept { OnErr result (system.new ≡ system.old) }
    ensures indexed { Follows tables.old tables.new system.new.system.equations }
{
    match split_variable(system, alloc, place)? {
        None => Ok(false),
        Some(var) => {
            split_by(system, tables, alloc, place, var)?;
            Ok(true)
        }
    }
}

/// Whether the rule for a variable that splits an equation applies at a place.
pub fn split_applies(system: &LinSystem, alloc: Global, place: usize) -> Result<bool, NoMemory>
    requires { place < length system.now.system.equations }
    ensures { IfOk result (IsTested Split (at place) system.now.system) }
{
    let found = split_variable(system, alloc, place)?;
    Ok(found.is_some())
}

/// The first variable by which the equation at a place is split.
fn split_variable(system: &LinSystem, alloc: Global, place: usize) -> Result<Option<u8>, NoMemory>
    requires { place < length system.now.system.equations }
    ensures { IfOk result (λ found. MatchOption found (¬ (AppliesSplit system.now.system place)) (IsSplitAt system.now.system place)) }
{
    let space = system.space();
    space_is_small(space);
    let eq = equation_at(system, place);
    for var in 0..space.p + space.q {
        let splits = is_split_by(alloc, system.unknowns(), eq, var)?;
        if splits {
            return Ok(Some(var));
        }
    }
    Ok(None)
}

/// Whether a variable occurs in a coefficient of a form, and none of its unknowns depends on it.
fn is_split_by(alloc: Global, unknowns: &[Unknown], eq: &LinEq, var: u8) -> Result<bool, NoMemory>
    requires { var < 8 }
    ensures { IfOk result (λ yes. IsTrue yes ↔ IsSplitBy (map unknown_of unknowns.now) eq.now var) }
{
    if !is_independent(unknowns, eq, var) {
        return Ok(false);
    }
    let degree = form_degree(alloc, eq, u32::from(var))?;
    Ok(degree > 0)
}

/// Whether no unknown of a form depends on a variable.
pub fn is_independent(unknowns: &[Unknown], eq: &LinEq, var: u8) -> bool
    requires { var < 8 }
    ensures { IsTrue result ↔ IsIndependent (map unknown_of unknowns.now) var eq.now }
{
    for term in eq.terms() {
        if depends(unknowns, term.0.unknown, var) {
            return false;
        }
    }
    true
}

/// Puts the coefficients of the powers of a variable in place of the equation.
fn split_by(
    system: &mut LinSystem,
    tables: &mut Tables,
    alloc: Global,
    place: usize,
    var: u8,
) -> Result<(), PolyFail>
    requires is { IsSplitAt system.old.system place var }
    requires indexed { IsIndexOf tables.old system.old.system.equations }
    ensures after { OnOk result (AfterSplit system.old.system place system.new.system) }
    ensures space { system.new.space ≡ system.old.space }
    ensures fits { OnOk result (IsWorkWithin (TryMakes Split system.old.system (at place))) }
    ensures past { IfErr result (λ fail. IsWorkCause fail (TryMakes Split system.old.system (at place))) }
    ensures kept { OnErr result (system.new ≡ system.old) }
    ensures indexed { Follows tables.old tables.new system.new.system.equations }
{
    system_is_valid(system);
    let parts = coefficients_of_powers(alloc, equation_at(system, place), u32::from(var))?;
    exchange_forms(system, tables, alloc, place, parts.as_slice())
}
