// Polynomials that are a number times a variable, and terms without it.
ghost use Rattle.std.specs.Prelude.{◌≡◌, ◌++◌, ◌∷◌, [], IsTrue, ◌↔◌, IfOk, OnOk, MatchOption};
ghost use Rattle.lie_math.specs.Monomial.{single};
ghost use Rattle.lie_math.specs.Polynomial.{WholePolynomial, polynomial_of};
ghost use Rattle.lie_solved.specs.Leads.{IsLinearIn};
ghost use Rattle.lie_solved.specs.Equations.{turned, rest_of, IsLinearWith};

use lie_bytes::NoMemory;
use lie_jet::JetPoly;
use lie_ring::{Mono, Ring, Whole};
use lie_system::sum_within_limits;
use std::alloc::Global;

/// Whether a monomial is a variable.
fn is_single(mono: &Mono, number: u32) -> bool
    ensures { IsTrue result ↔ (mono.now ≡ single number) }
{
    let pairs = mono.pairs();
    if pairs.len() != 1 {
        return false;
    }
    let (variable, exponent) = pairs[0];
    variable == number && exponent == 1
}

/// The number with which a variable is a term, where no other term has it.
pub fn only_coefficient(terms: &[(Mono, Whole)], number: u32) -> Option<Whole>
    ensures { (P : WholePolynomial) → P.list ≡ terms.now → MatchOption result (¬ (IsLinearIn number P)) (IsLinearWith number P) }
{
    let mut found = None;
    for term in terms {
        if term.0.exponent(number) != 0 {
            if !is_single(&term.0, number) {
                return None;
            }
            found = Some(term.1);
        }
    }
    found
}

/// A number, or its negative.
fn turned(negative: bool, number: Whole) -> Whole
    ensures { result ≡ turned negative number }
{
    if negative { number.neg() } else { number }
}

/// Puts a term behind others, with its number turned, unless it has a variable.
fn push_without(
    out: &mut Vec<(Mono, Whole)>,
    alloc: Global,
    number: u32,
    negative: bool,
    term: &(Mono, Whole),
) -> Result<(), NoMemory>
    ensures { OnOk result (out.new.items ≡ out.old.items ++ rest_of number negative (term.now ∷ [])) }
{
    if term.0.exponent(number) != 0 {
        return Ok(());
    }
    let mono = term.0.copy(alloc)?;
    out.push((mono, turned(negative, term.1)))?;
    Ok(())
}

/// The terms without a variable, with their numbers turned.
fn terms_without(
    alloc: Global,
    terms: &[(Mono, Whole)],
    number: u32,
    negative: bool,
) -> Result<Vec<(Mono, Whole)>, NoMemory>
    ensures { IfOk result (λ out. out.items ≡ rest_of number negative terms.now) }
{
    let mut out = Vec::new(alloc);
    for term in terms {
        push_without(&mut out, alloc, number, negative, term)?;
    }
    Ok(out)
}

/// The sum of the terms of a polynomial without a variable, with their numbers turned.
pub fn rest_of(
    alloc: Global,
    poly: &JetPoly,
    terms: &[(Mono, Whole)],
    number: u32,
    negative: bool,
) -> Result<JetPoly, NoMemory>
    requires { poly.now.list ≡ terms.now }
    ensures { IfOk result (λ rest. rest ≡ polynomial_of (rest_of number negative poly.now.list)) }
{
    let rest = terms_without(alloc, terms, number, negative)?;
    poly.is_within_limits();
    sum_within_limits(alloc, rest.as_slice())
}
