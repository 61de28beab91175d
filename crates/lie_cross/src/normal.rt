// Normal forms by the equations of a system; a form in which nothing can be reduced is not copied.
ghost use Rattle.std.specs.Prelude.{◌≡◌, ◌+◌, ◌≤◌, ◌↔◌, IsTrue, MatchBool, MatchOption, IfOk, IfErr, OnOk};
ghost use Rattle.lie_math.specs.LinearForm.{no_form};
ghost use Rattle.lie_systems.specs.ValidSystems.{IsFormOf, IsValid};
ghost use Rattle.lie_systems.specs.Works.{IsWorkWithin};
ghost use Rattle.lie_jet.specs.Derivatives.{derivative_of};
ghost use Rattle.lie_steps.specs.NormalForm.{IsLedBy, IsNormalForm, NormalFormMakes};
ghost use Rattle.lie_normal.specs.WorkCauses.{IsWorkCause};
ghost use Rattle.lie_cross.specs.Normal.{SomeLeads, SomeIsReducible};

use lie_jet::{Der, space_is_small};
use lie_lin::{LinEq, LinSystem, lead};
use lie_normal::{divides, normal_form};
use lie_ring::PolyFail;
use std::alloc::Global;

/// The number of the variables of a system.
pub fn variable_count(system: &LinSystem) -> u8
    ensures count { result ≡ system.now.space.p + system.now.space.q }
    ensures few { result ≤ 8 }
{
    let space = system.space();
    space_is_small(space);
    space.p + space.q
}

/// A system is valid, in at most 8 variables, which becomes known where this is called.
pub fn system_is_valid(system: &LinSystem)
    ensures valid { IsValid (system.now.space.p + system.now.space.q) system.now.system }
    ensures few { system.now.space.p + system.now.space.q ≤ 8 }
{
    space_is_small(system.space());
}

/// Whether the lead of an equation divides a derivative.
pub fn leads(equation: &LinEq, der: &Der) -> bool
    ensures { IsTrue result ↔ IsLedBy (derivative_of der.now) equation.now }
{
    match lead(equation) {
        Some(lead) => divides(&lead, der),
        None => false,
    }
}

/// Whether the lead of some equation of a list divides a derivative.
fn some_leads(list: &[LinEq], der: &Der) -> bool
    ensures { MatchBool result (SomeLeads list.now (derivative_of der.now)) (¬ (SomeLeads list.now (derivative_of der.now))) }
{
    for equation in list {
        if leads(equation, der) {
            return true;
        }
    }
    false
}

/// Whether the lead of some equation of a list divides a derivative of a form. It takes no memory.
pub fn is_reducible(list: &[LinEq], form: &LinEq) -> bool
    ensures { MatchBool result (SomeIsReducible list.now form.now) (¬ (SomeIsReducible list.now form.now)) }
{
    for term in form.terms() {
        if some_leads(list, &term.0) {
            return true;
        }
    }
    false
}

/// The normal form of a form by the equations of a system. A form in which nothing can be reduced is given back as it is.
///
/// `Past` comes exactly where an action that leads to the normal form is past a limit.
pub fn normal_form_by(system: &LinSystem, alloc: Global, form: LinEq) -> Result<LinEq, PolyFail>
    requires { IsFormOf (system.now.space.p + system.now.space.q) system.now.system.unknowns form }
    ensures normal { IfOk result (IsNormalForm system.now.system.unknowns system.now.system.equations form) }
    ensures fits { OnOk result (IsWorkWithin (NormalFormMakes system.now.system.unknowns system.now.system.equations form)) }
    ensures past { IfErr result (λ fail. IsWorkCause fail
        (NormalFormMakes system.now.system.unknowns system.now.system.equations form)) }
{
    system_is_valid(system);
    let equations = system.equations();
    if !is_reducible(equations, &form) {
        return Ok(form);
    }
    normal_form(alloc, &form, equations, system.unknowns())
}

/// A form, unless it is empty.
pub fn unless_empty(form: LinEq) -> Option<LinEq>
    ensures { MatchOption result (form ≡ no_form) (λ same. (same ≡ form) × (¬ (form ≡ no_form))) }
{
    match lead(&form) {
        None => None,
        Some(_) => Some(form),
    }
}
