// Normalised equations.
ghost use Rattle.std.specs.Prelude.{◌≡◌, ◌++◌, ◌∷◌, [], IfOk, OnOk, pos, unsigned_abs};
ghost use Rattle.std.specs.List.{AllByRecursion as Every};
ghost use Rattle.lie_math.specs.Limits.{IsWithinLimits};
ghost use Rattle.lie_math.specs.Polynomial.{term, ◌*ᴾ◌};
ghost use Rattle.lie_math.proofs.TermWise.{times_list};
ghost use Rattle.lie_systems.proofs.Triples.{each_times};
ghost use Rattle.lie_systems.specs.Triples.{triples_in};
ghost use Rattle.lie_systems.specs.Laws.{DividesMonomials, DividesNumbers};
ghost use Rattle.lie_systems.specs.Normalised.{primitive, derivative_alone};
ghost use Rattle.lie_jet.specs.Derivatives.{derivative_of};
ghost use Rattle.lie_lin.specs.Forms.{coefficients_of};
ghost use Rattle.lie_lin.specs.Powers.{IsDividedTerm};

use crate::content::{common_monomial, signed_content};
use crate::equation::{LinEq, triples};
use crate::factors::without_factor;
use lie_bytes::NoMemory;
use lie_jet::Der;
use lie_poly::Flat;
use lie_ring::{Mono, PolyFail, Polynomial, Ring, Whole, constant_polynomial};
use std::alloc::Global;

/// Puts a term behind others, divided by a number and a monomial that divide it.
fn push_divided(
    out: &mut Vec<(Mono, Whole)>,
    alloc: Global,
    number: Whole,
    mono: &Mono,
    term: &(Mono, Whole),
) -> Result<(), NoMemory>
    requires apart { ¬ (number ≡ pos 0) }
    requires divides { IsDividedTerm mono.now number term.now }
    ensures { OnOk result (times_list mono.now number out.new.items ≡ times_list mono.now number out.old.items ++ term.now ∷ []) }
{
    let rest = without_factor(alloc, mono, &term.0)?;
    out.push((rest, term.1.exact_quotient(number)))?;
    Ok(())
}

/// A coefficient is within the limits.
fn coefficient_fits(coefficient: &Flat<Whole>)
    ensures { IsWithinLimits coefficient.now }
{
    coefficient.len();
}

/// A coefficient divided by a number and a monomial that divide each of its terms. It is never past a limit.
pub fn divided_coefficient(
    alloc: Global,
    number: Whole,
    mono: &Mono,
    coefficient: &Flat<Whole>,
) -> Result<Flat<Whole>, NoMemory>
    requires apart { ¬ (number ≡ pos 0) }
    requires divides { Every (IsDividedTerm mono.now number) coefficient.now.list }
    ensures { IfOk result (λ rest. term mono.now number *ᴾ rest ≡ coefficient.now) }
{
    coefficient_fits(coefficient);
    let terms = coefficient.terms(alloc)?;
    let mut out = Vec::new(alloc);
    for term in terms.as_slice() {
        push_divided(&mut out, alloc, number, mono, term)?;
    }
    match Flat::of_terms(alloc, out.as_slice()) {
        Ok(rest) => Ok(rest),
        Err(PolyFail::NoMemory) => Err(NoMemory),
        Err(PolyFail::Past(_)) => unreachable!(),
    }
}

/// Coefficients divided by a number and a monomial that divide each of their terms.
pub fn divided_coefficients(
    alloc: Global,
    number: Whole,
    mono: &Mono,
    terms: &[(Der, Flat<Whole>)],
) -> Result<Vec<(Der, Flat<Whole>)>, NoMemory>
    requires apart { ¬ (number ≡ pos 0) }
    requires numbers { DividesNumbers (unsigned_abs number) (triples_in (coefficients_of terms.now)) }
    requires monomials { DividesMonomials mono.now (triples_in (coefficients_of terms.now)) }
    ensures { IfOk result (λ out. each_times (term mono.now number) (coefficients_of out.items) ≡ coefficients_of terms.now) }
{
    let mut out = Vec::new(alloc);
    for term in terms {
        let rest = divided_coefficient(alloc, number, mono, &term.1)?;
        out.push((term.0, rest))?;
    }
    Ok(out)
}

/// A derivative with the coefficient 1.
pub fn derivative_alone(alloc: Global, der: Der) -> Result<LinEq, NoMemory>
    ensures { IfOk result (λ form. form ≡ derivative_alone (derivative_of der)) }
{
    let one = constant_polynomial(alloc, Whole::one())?;
    let mut terms = Vec::new(alloc);
    terms.push((der, one))?;
    Ok(LinEq::of_terms(terms))
}

/// The normalised equation: without a coefficient where there is one derivative alone, and else divided by the greatest number and
/// the greatest monomial that divide all of it, with the sign that makes the first number positive.
pub fn primitive(alloc: Global, eq: &LinEq) -> Result<LinEq, NoMemory>
    ensures { IfOk result (λ made. made ≡ primitive eq.now) }
{
    let terms = eq.terms();
    if terms.len() == 1 {
        return derivative_alone(alloc, terms[0].0);
    }
    if terms.len() == 0 {
        return Ok(LinEq::of_terms(Vec::new(alloc)));
    }
    let list = triples(alloc, eq)?;
    let number = signed_content(list.as_slice());
    let mono = common_monomial(alloc, list.as_slice())?;
    let out = divided_coefficients(alloc, number, &mono, terms)?;
    Ok(LinEq::of_terms(out))
}
