// The rule that reduces an equation by the others.
ghost use Rattle.std.specs.Prelude.{◌≡◌, ◌<◌, ◌≤◌, length, get_or, remove, MatchBool, IfOk, IfErr, OnOk, OnErr};
ghost use Rattle.std.specs.List.{insert};
ghost use Rattle.std.specs.Vec.{vec_len, vec_capacity};
ghost use Rattle.lie_math.specs.LinearForm.{no_form};
ghost use Rattle.lie_systems.specs.Works.{IsWorkWithin};
ghost use Rattle.lie_steps.specs.Equations.{equation};
ghost use Rattle.lie_steps.specs.NormalForm.{IsNormalForm, NormalFormMakes};
ghost use Rattle.lie_steps.specs.Rules.{Reduce};
ghost use Rattle.lie_tables.specs.Tables.{Follows, IsIndexOf};
ghost use Rattle.lie_normal.specs.WorkCauses.{IsWorkCause};
ghost use Rattle.lie_change.specs.Tested.{IsTested};
ghost use Rattle.lie_change.specs.Tried.{at, TryMakes, IsTried};
ghost use Rattle.lie_jet.specs.Derivatives.{derivative_of};
ghost use Rattle.lie_cross.specs.Normal.{SomeLeads, SomeIsReducible};

use crate::normal::{is_reducible, leads, system_is_valid};
use lie_change::exchange_forms;
use lie_jet::Der;
use lie_lin::{LinEq, LinSystem};
use lie_normal::normal_form;
use lie_ring::PolyFail;
use lie_tables::Tables;
use std::alloc::Global;

/// Tries the rule reduce at a place: where the lead of another equation divides a derivative in the equation there, its normal form
/// by the others takes its place. The answer says whether the rule applies; where it doesn't, nothing changes, and no memory is
/// taken.
///
/// `Past` comes exactly where an action of the step is past a limit. After an error the system is as it was.
pub fn try_reduce(system: &mut LinSystem, alloc: Global, place: usize) -> Result<bool, PolyFail>
    requires { place < length system.old.system.equations }
    ensures tried { IfOk result (IsTried Reduce (at place) system.old system.new) }
    ensures fits { OnOk result (IsWorkWithin (TryMakes Reduce system.old.system (at place))) }
    ensures past { IfErr result (λ fail. IsWorkCause fail (TryMakes Reduce system.old.system (at place))) }
    ensures kept { OnErr result (system.new ≡ system.old) }
{
    let mut tables = Tables::none(alloc);
    try_reduce_with(system, &mut tables, alloc, place)
}

/// The same, and tables of the equations, where they are kept, follow the system.
pub fn try_reduce_with(
    system: &mut LinSystem,
    tables: &mut Tables,
    alloc: Global,
    place: usize,
) -> Result<bool, PolyFail>
    requires place { place < length system.old.system.equations }
    requires indexed { IsIndexOf tables.old system.old.system.equations }
    ensures tried { IfOk result (IsTried Reduce (at place) system.old system.new) }
    ensures fits { OnOk result (IsWorkWithin (TryMakes Reduce system.old.system (at place))) }
    ensures past { IfErr result (λ fail. IsWorkCause fail (TryMakes Reduce system.old.system (at place))) }
    ensures kept { OnErr result (system.new ≡ system.old) }
    ensures indexed { Follows tables.old tables.new system.new.system.equations }
{
    system_is_valid(system);
    if !applies_by(system.equations(), tables, place) {
        return Ok(false);
    }
    let form = normal_form_by_others(system, alloc, place)?;
    let forms = [form];
    exchange_forms(system, tables, alloc, place, forms.as_slice())?;
    Ok(true)
}

/// Whether reduce applies at a place.
pub fn reduce_applies(system: &LinSystem, place: usize) -> bool
    requires { place < length system.now.system.equations }
    ensures { IsTested Reduce (at place) system.now.system result }
{
    applies(system.equations(), place)
}

/// The same, where tables of the equations, if they are kept, tell which ones are looked at.
pub fn reduce_applies_with(system: &LinSystem, tables: &Tables, place: usize) -> bool
    requires place { place < length system.now.system.equations }
    requires indexed { IsIndexOf tables.now system.now.system.equations }
    ensures { IsTested Reduce (at place) system.now.system result }
{
    applies_by(system.equations(), tables, place)
}

/// Whether the lead of another equation divides a derivative in the equation at a place.
fn applies(equations: &[LinEq], place: usize) -> bool
    requires { place < length equations.now }
    ensures { MatchBool result (SomeIsReducible (remove equations.now place) (get_or equations.now place no_form))
        (¬ (SomeIsReducible (remove equations.now place) (get_or equations.now place no_form))) }
{
    let equation = &equations[place];
    is_reducible(&equations[..place], equation) || is_reducible(&equations[place + 1..], equation)
}

/// The same, where tables of the equations, if they are kept, tell which ones are looked at.
fn applies_by(equations: &[LinEq], tables: &Tables, place: usize) -> bool
    requires place { place < length equations.now }
    requires indexed { IsIndexOf tables.now equations.now }
    ensures { MatchBool result (SomeIsReducible (remove equations.now place) (get_or equations.now place no_form))
        (¬ (SomeIsReducible (remove equations.now place) (get_or equations.now place no_form))) }
{
    let equation = &equations[place];
    for term in equation.terms() {
        if another_leads(equations, tables, place, &term.0) {
            return true;
        }
    }
    false
}

/// Whether the lead of an equation other than that at a place divides a derivative: of those with the derivative's unknown, where the
/// tables are kept.
fn another_leads(equations: &[LinEq], tables: &Tables, place: usize, der: &Der) -> bool
    requires place { place < length equations.now }
    requires indexed { IsIndexOf tables.now equations.now }
    ensures { MatchBool result (SomeLeads (remove equations.now place) (derivative_of der.now))
        (¬ (SomeLeads (remove equations.now place) (derivative_of der.now))) }
{
    let mut from = 0;
    while let Some(at) = tables.next_place(equations, der.unknown, from) {
        if at != place && leads(&equations[at], der) {
            return true;
        }
        from = at + 1;
    }
    false
}

/// The normal form of the equation at a place by the others. For this the equation is taken out of the list, and then put back.
///
/// `Past` comes exactly where an action that leads to the normal form is past a limit.
fn normal_form_by_others(
    system: &mut LinSystem,
    alloc: Global,
    place: usize,
) -> Result<LinEq, PolyFail>
    requires { place < length system.old.system.equations }
    ensures same { system.new ≡ system.old }
    ensures normal { IfOk result (IsNormalForm system.old.system.unknowns (remove system.old.system.equations place)
        (equation system.old.system place)) }
    ensures fits { OnOk result (IsWorkWithin (NormalFormMakes system.old.system.unknowns (remove system.old.system.equations place)
        (equation system.old.system place))) }
    ensures past { IfErr result (λ fail. IsWorkCause fail (NormalFormMakes system.old.system.unknowns
        (remove system.old.system.equations place) (equation system.old.system place))) }
{
    system_is_valid(system);
    let mut equations = system.take_equations(alloc);
    let equation = equations.remove(place);
    let answer = normal_form(alloc, &equation, equations.as_slice(), system.unknowns());
    put_back(&mut equations, place, equation);
    system.set_equations(equations);
    answer
}

/// Puts an equation back to its place in a list that has room for it.
fn put_back(equations: &mut Vec<LinEq>, place: usize, equation: LinEq)
    requires place { place ≤ length equations.old.items }
    requires room { vec_len equations.old < vec_capacity equations.old }
    ensures { equations.new.items ≡ insert equations.old.items place equation }
{
    match equations.insert(place, equation) {
        Ok(()) => {}
        Err(_) => unreachable!(),
    }
}
