// The order of equations.
ghost use Rattle.std.specs.Prelude.{◌≡◌, ◌<◌, ◌^◌, length, IfOk};
ghost use Rattle.std.specs.Cmp.Lexicographic.{slice_cmp};
ghost use Rattle.lie_systems.specs.EquationOrder.{triple_cmp, equation_cmp};
ghost use Rattle.lie_systems.specs.Triples.{triples as triples_in_form};
ghost use Rattle.lie_jet.specs.Derivatives.{derivative_of};
ghost use Rattle.lie_lin.specs.Forms.{triples_of};

use crate::equation::{LinEq, triples};
use lie_bytes::NoMemory;
use lie_jet::{Der, compare_derivatives};
use lie_ring::{Mono, Whole};
use std::alloc::Global;
use std::cmp::Ordering;

/// The number of triples of a form: of a derivative, a monomial and a number.
pub fn form_triple_count(eq: &LinEq) -> u128
    ensures count { result ≡ length (triples_in_form eq.now) }
    ensures small { result < 2 ^ 127 }
{
    let mut count: u128 = 0;
    for term in eq.terms() {
        count += term.1.len() as u128;
    }
    count
}

/// The order of two triples: the lesser derivative first, then the monomial that is printed later, then the lesser number.
fn compare_triples(left: &(Der, Mono, Whole), right: &(Der, Mono, Whole)) -> Ordering
    ensures { result ≡ triple_cmp (derivative_of left.now.0, left.now.1, left.now.2) (derivative_of right.now.0, right.now.1, right.now.2) }
{
    let derivatives = compare_derivatives(&right.0, &left.0);
    let monomials = right.1.compare(&left.1);
    let numbers = left.2.get().cmp(&right.2.get());
    derivatives.then(monomials.then(numbers))
}

/// The order of two lists of triples: the first two that differ decide, and else the lengths do.
fn compare_lists(left: &[(Der, Mono, Whole)], right: &[(Der, Mono, Whole)]) -> Ordering
    ensures { result ≡ slice_cmp triple_cmp (triples_of left.now) (triples_of right.now) }
{
    let mut i = 0;
    while i < left.len() && i < right.len() {
        match compare_triples(&left[i], &right[i]) {
            Ordering::Equal => i += 1,
            Ordering::Less => return Ordering::Less,
            Ordering::Greater => return Ordering::Greater,
        }
    }
    left.len().cmp(&right.len())
}

/// The order of equations: the one with fewer triples first, then triple by triple.
pub fn compare_equations(alloc: Global, left: &LinEq, right: &LinEq) -> Result<Ordering, NoMemory>
    ensures { IfOk result (λ order. order ≡ equation_cmp left.now right.now) }
{
    match form_triple_count(left).cmp(&form_triple_count(right)) {
        Ordering::Less => Ok(Ordering::Less),
        Ordering::Greater => Ok(Ordering::Greater),
        Ordering::Equal => compare_triple_lists(alloc, left, right),
    }
}

/// The order of the triples of two equations.
fn compare_triple_lists(alloc: Global, left: &LinEq, right: &LinEq) -> Result<Ordering, NoMemory>
    ensures { IfOk result (λ order. order ≡ slice_cmp triple_cmp (triples_in_form left.now) (triples_in_form right.now)) }
{
    let left = triples(alloc, left)?;
    let right = triples(alloc, right)?;
    Ok(compare_lists(left.as_slice(), right.as_slice()))
}
