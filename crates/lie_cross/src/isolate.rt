// The rule that isolates a derivative in a derivative of an equation.
ghost use Rattle.std.specs.Prelude.{◌≡◌, ◌+◌, ◌<◌, ◌≤◌, length, map, MatchBool, MatchOption, IfOk, IfErr, OnOk, OnErr};
ghost use Rattle.lie_systems.specs.Works.{IsWorkWithin};
ghost use Rattle.lie_lin.specs.Systems.{unknown_of};
ghost use Rattle.lie_steps.specs.Isolate.{free_degree, freed, SomeDepends, SomeIsFree};
ghost use Rattle.lie_steps.specs.Isolate.{IsIsolatedBy, IsIsolatedAt, AppliesIsolate, IsolateTries};
ghost use Rattle.lie_steps.specs.Rules.{Isolate, Tries};
ghost use Rattle.lie_tables.specs.Tables.{Follows, IsIndexOf};
ghost use Rattle.lie_normal.specs.WorkCauses.{IsWorkCause};
ghost use Rattle.lie_change.specs.Tested.{IsTested};
ghost use Rattle.lie_change.specs.Tried.{at, TryMakes, IsTried};
ghost use Rattle.lie_cross.specs.Isolate.{IsEarliestPart, PartMakes, IsolationTries};

use crate::dependence::{free_degree, some_is};
use crate::normal::{system_is_valid, variable_count};
use crate::parts::first_single_part;
use lie_change::add_form;
use lie_lin::{LinEq, LinSystem, Unknown, primitive};
use lie_normal::{derive, derived_often};
use lie_ring::PolyFail;
use lie_tables::Tables;
use std::alloc::Global;

/// The greatest exponent that is derived away.
const MAX_FREE_DEGREE: u32 = 31;

/// Tries the rule isolate at a place: the equation there is derived by a variable on which some of its unknowns depend and others do
/// not, until these are gone; the first part of this with one derivative is a new equation. The answer says whether there is one;
/// where there is none, nothing changes.
///
/// `Past` comes exactly where an action of the test or of the step is past a limit. After an error the system is as it was.
pub fn try_isolate(system: &mut LinSystem, alloc: Global, place: usize) -> Result<bool, PolyFail>
    requires { place < length system.old.system.equations }
    ensures tried { IfOk result (IsTried Isolate (at place) system.old system.new) }
    ensures fits { OnOk result (IsWorkWithin (TryMakes Isolate system.old.system (at place))) }
    ensures past { IfErr result (λ fail. IsWorkCause fail (TryMakes Isolate system.old.system (at place))) }
    ensures kept { OnErr result (system.new ≡ system.old) }
{
    let mut tables = Tables::none(alloc);
    try_isolate_with(system, &mut tables, alloc, place)
}

/// The same, and tables of the equations, where they are kept, follow the system.
pub fn try_isolate_with(
    system: &mut LinSystem,
    tables: &mut Tables,
    alloc: Global,
    place: usize,
) -> Result<bool, PolyFail>
    requires place { place < length system.old.system.equations }
    requires indexed { IsIndexOf tables.old system.old.system.equations }
    ensures tried { IfOk result (IsTried Isolate (at place) system.old system.new) }
    ensures fits { OnOk result (IsWorkWithin (TryMakes Isolate system.old.system (at place))) }
    ensures past { IfErr result (λ fail. IsWorkCause fail (TryMakes Isolate system.old.system (at place))) }
    ensures kept { OnErr result (system.new ≡ system.old) }
    ensures indexed { Follows tables.old tables.new system.new.system.equations }
{
    system_is_valid(system);
    match isolated_form(system, alloc, place)? {
        Some(part) => {
            let form = primitive(alloc, &part)?;
            add_form(system, tables, alloc, &form)?;
            Ok(true)
        }
        None => Ok(false),
    }
}

/// Whether isolate applies at a place.
///
/// `Past` comes exactly where an action of the test is past a limit.
pub fn isolate_applies(system: &LinSystem, alloc: Global, place: usize) -> Result<bool, PolyFail>
    requires { place < length system.now.system.equations }
    ensures tested { IfOk result (IsTested Isolate (at place) system.now.system) }
    ensures fits { OnOk result (IsWorkWithin (Tries Isolate system.now.system (at place))) }
    ensures past { IfErr result (λ fail. IsWorkCause fail (Tries Isolate system.now.system (at place))) }
{
    let found = isolated_form(system, alloc, place)?;
    Ok(found.is_some())
}

/// The part that isolate finds for the equation at a place, by the variables of the space in their order, if the rule applies.
fn isolated_form(system: &LinSystem, alloc: Global, place: usize) -> Result<Option<LinEq>, PolyFail>
    requires { place < length system.now.system.equations }
    ensures found { IfOk result (λ found. MatchOption found (¬ (AppliesIsolate system.now.system place))
        (λ part. (v : _) × IsIsolatedAt system.now.system place v part)) }
    ensures fits { OnOk result (IsWorkWithin (IsolateTries system.now.system place)) }
    ensures past { IfErr result (λ fail. IsWorkCause fail (IsolateTries system.now.system place)) }
{
    system_is_valid(system);
    for var in 0..variable_count(system) {
        if let Some(part) = part_by(alloc, &system.equations()[place], system.unknowns(), var)? {
            return Ok(Some(part));
        }
    }
    Ok(None)
}

/// The part that isolate finds in an equation by one variable, if it is so.
fn part_by(
    alloc: Global,
    equation: &LinEq,
    unknowns: &[Unknown],
    var: u8,
) -> Result<Option<LinEq>, PolyFail>
    requires { var < 8 }
    ensures found { IfOk result (λ found. MatchOption found
        ((P : _) → ¬ (IsIsolatedBy (map unknown_of unknowns.now) equation.now var P))
        (IsIsolatedBy (map unknown_of unknowns.now) equation.now var)) }
    ensures fits { OnOk result (IsWorkWithin (IsolationTries (map unknown_of unknowns.now) equation.now var)) }
    ensures past { IfErr result (λ fail. IsWorkCause fail (IsolationTries (map unknown_of unknowns.now) equation.now var)) }
{
    if !is_mixed(equation, unknowns, var) {
        return Ok(None);
    }
    let degree = free_degree(alloc, equation, unknowns, var)?;
    if degree > MAX_FREE_DEGREE {
        return Ok(None);
    }
    part_of_derivative(alloc, equation, unknowns, var, degree as u8)
}

/// Whether some unknown of an equation depends on a variable, and some does not.
fn is_mixed(equation: &LinEq, unknowns: &[Unknown], var: u8) -> bool
    requires { var < 8 }
    ensures { MatchBool result (SomeDepends (map unknown_of unknowns.now) equation.now var
        × SomeIsFree (map unknown_of unknowns.now) equation.now var)
        (¬ (SomeDepends (map unknown_of unknowns.now) equation.now var × SomeIsFree (map unknown_of unknowns.now) equation.now var)) }
{
    some_is(equation, unknowns, var, true) && some_is(equation, unknowns, var, false)
}

/// The first part with one derivative of an equation that is derived so often and once more, until the unknowns that do not depend on
/// the variable are gone.
fn part_of_derivative(
    alloc: Global,
    equation: &LinEq,
    unknowns: &[Unknown],
    var: u8,
    degree: u8,
) -> Result<Option<LinEq>, PolyFail>
    requires within { var < 8 }
    requires degree { degree ≡ free_degree (map unknown_of unknowns.now) equation.now var }
    ensures found { IfOk result (IsEarliestPart (map unknown_of unknowns.now)
        (freed (map unknown_of unknowns.now) equation.now var)) }
    ensures fits { OnOk result (IsWorkWithin (PartMakes (map unknown_of unknowns.now) equation.now var)) }
    ensures past { IfErr result (λ fail. IsWorkCause fail (PartMakes (map unknown_of unknowns.now) equation.now var)) }
{
    let derived = derive(alloc, equation, unknowns, var)?;
    let freed = derived_often(alloc, derived, unknowns, var, degree)?;
    Ok(first_single_part(alloc, &freed, unknowns)?)
}
