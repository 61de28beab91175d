// On which variables the unknowns of a form depend, and how high these stand in the coefficients of the others.
ghost use Rattle.std.specs.Prelude.{◌≡◌, ℕ, ◌<◌, not, map, MatchBool, IfOk};
ghost use Rattle.std.specs.List.{AllByRecursion as Every, Any, list_any};
ghost use Rattle.lie_math.specs.Powers.{degree_in};
ghost use Rattle.lie_lin.specs.Systems.{unknown_of};
ghost use Rattle.lie_steps.specs.Equations.{depends};
ghost use Rattle.lie_steps.specs.Isolate.{free_degree};
ghost use Rattle.lie_parts.specs.Parts.{is_inside};

use lie_bytes::NoMemory;
use lie_jet::JetPoly;
use lie_lin::{LinEq, Unknown};
use lie_normal::depends;
use lie_parts::Inside;
use lie_ring::Polynomial;
use std::alloc::Global;

/// Whether some unknown of a form depends on a variable, or, for `yes` false, does not.
pub fn some_is(form: &LinEq, unknowns: &[Unknown], var: u8, yes: bool) -> bool
    requires { var < 8 }
    ensures { MatchBool result (Any (λ e. depends (map unknown_of unknowns.now) (e.0).unknown var ≡ yes) form.now.list)
        (Every (λ e. depends (map unknown_of unknowns.now) (e.0).unknown var ≡ not yes) form.now.list) }
{
    for term in form.terms() {
        if depends(unknowns, term.0.unknown, var) == yes {
            return true;
        }
    }
    false
}

/// The variables on which some unknown of a form depends stand inside.
pub fn inner_variables(form: &LinEq, unknowns: &[Unknown]) -> Inside
    ensures { (v : ℕ) → is_inside result v ≡ list_any (λ e. depends (map unknown_of unknowns.now) (e.0).unknown v) form.now.list }
{
    let mut inside = [false; 8];
    for var in 0..8u8 {
        inside[usize::from(var)] = some_is(form, unknowns, var, true);
    }
    inside
}

/// The greatest exponent of a variable in a coefficient.
fn degree_in(alloc: Global, coefficient: &JetPoly, var: u8) -> Result<u32, NoMemory>
    ensures { IfOk result (λ degree. degree ≡ degree_in var coefficient.now) }
{
    let terms = coefficient.terms(alloc)?;
    let mut degree = 0;
    let mut i = terms.len();
    while i > 0 {
        i -= 1;
        degree = terms[i].0.exponent(u32::from(var)).max(degree);
    }
    Ok(degree)
}

/// The greatest exponent of a variable in the coefficients of the unknowns that do not depend on it.
pub fn free_degree(
    alloc: Global,
    form: &LinEq,
    unknowns: &[Unknown],
    var: u8,
) -> Result<u32, NoMemory>
    requires { var < 8 }
    ensures { IfOk result (λ degree. degree ≡ free_degree (map unknown_of unknowns.now) form.now var) }
{
    let terms = form.terms();
    let mut degree = 0;
    let mut i = terms.len();
    while i > 0 {
        i -= 1;
        if !depends(unknowns, terms[i].0.unknown, var) {
            degree = degree_in(alloc, &terms[i].1, var)?.max(degree);
        }
    }
    Ok(degree)
}
