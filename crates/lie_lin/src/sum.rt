// Sums of triples.
ghost use Rattle.std.specs.Prelude.{◌≡◌, ◌≤◌, ◌<◌, ◌++◌, ◌∷◌, [], length, map, IsTrue, IfOk, OnOk, IfErr};
ghost use Rattle.lie_math.specs.Polynomial.{polynomial_of};
ghost use Rattle.lie_math.specs.Limits.{absolutes, IsWithinLimits as IsPolynomialWithinLimits};
ghost use Rattle.lie_systems.specs.Triples.{sum_of_triples};
ghost use Rattle.lie_systems.specs.Bulk.{bulk, IsFormWithinLimits};
ghost use Rattle.lie_ring.specs.Causes.{IsCause};
ghost use Rattle.lie_form.specs.FormLimits.{IsFormCause};
ghost use Rattle.lie_math.specs.Counts.{order};
ghost use Rattle.lie_lin.specs.Forms.{derivatives_of, coefficients_of, triples_of, terms_at, AreDerivatives, gathered, kept, unless_zero};
ghost use Rattle.lie_jet.specs.Derivatives.{derivative_of};

use crate::derivatives::derivatives;
use crate::equation::LinEq;
use lie_bytes::NoMemory;
use lie_jet::{Der, compare_derivatives, order_of_derivative};
use lie_poly::Flat;
use lie_ring::{Mono, PastKind, PolyFail, Polynomial, Ring, Whole};
use std::alloc::Global;

/// The greatest number of triples of a form.
const MAX_TRIPLES: u128 = 1_000_000;

/// The greatest order of a derivative of an unknown.
const MAX_ORDER: u32 = 64;

/// The sum of triples of a derivative, a monomial and a number, in any order. Past exactly where the sum of the triples with the
/// absolute values of their numbers has a number past 2^127 - 1, an exponent past 65,535, an order past 64 or more than 1,000,000 triples.
pub fn of_triples(alloc: Global, list: &[(Der, Mono, Whole)]) -> Result<LinEq, PolyFail>
    ensures sum { IfOk result (λ eq. eq ≡ sum_of_triples (triples_of list.now)) }
    ensures fits { OnOk result (IsFormWithinLimits (bulk (triples_of list.now))) }
    ensures past { IfErr result (λ fail. IsFormCause fail (bulk (triples_of list.now))) }
{
    let ders = derivatives(alloc, list)?;
    let terms = coefficients(alloc, list, ders.as_slice())?;
    Ok(LinEq::of_terms(terms))
}

/// The coefficients of derivatives in a sum of triples.
fn coefficients(
    alloc: Global,
    list: &[(Der, Mono, Whole)],
    ders: &[Der],
) -> Result<Vec<(Der, Flat<Whole>)>, PolyFail>
    requires { AreDerivatives (derivatives_of ders.now) (triples_of list.now) }
    ensures sum { IfOk result (λ terms. coefficients_of terms.items ≡ kept (gathered (derivatives_of ders.now) (triples_of list.now))) }
    ensures fits { OnOk result (IsFormWithinLimits (bulk (triples_of list.now))) }
    ensures past { IfErr result (λ fail. IsFormCause fail (bulk (triples_of list.now))) }
{
    let mut terms = Vec::new(alloc);
    let mut count: u128 = 0;
    for der in ders {
        let (coefficient, size) = coefficient_of(alloc, list, der)?;
        if is_high(der, size) {
            return Err(PolyFail::Past(PastKind::Order));
        }
        count += size as u128;
        push_unless_zero(&mut terms, der, coefficient)?;
    }
    if count > MAX_TRIPLES {
        return Err(PolyFail::Past(PastKind::Terms));
    }
    Ok(terms)
}

/// Whether the derivative occurs, with so many terms, and its order is past the limit.
fn is_high(der: &Der, term_count: usize) -> bool
    ensures high { IsTrue result → (¬ (term_count ≡ 0)) × (64 < order (derivative_of der.now).counts) }
    ensures low { (¬ (IsTrue result)) → (¬ (term_count ≡ 0)) → order (derivative_of der.now).counts ≤ 64 }
{
    if term_count == 0 {
        return false;
    }
    order_of_derivative(der) > MAX_ORDER
}

/// The coefficient of one derivative in a sum of triples, and the number of terms of its bulk.
fn coefficient_of(
    alloc: Global,
    list: &[(Der, Mono, Whole)],
    der: &Der,
) -> Result<(Flat<Whole>, usize), PolyFail>
    ensures value { IfOk result (λ found. found.0 ≡ polynomial_of (terms_at (derivative_of der.now) (triples_of list.now))) }
    ensures size { IfOk result (λ found. found.1 ≡ length (polynomial_of
        (absolutes (terms_at (derivative_of der.now) (triples_of list.now)))).list) }
    ensures fits { OnOk result (IsPolynomialWithinLimits (polynomial_of
        (absolutes (terms_at (derivative_of der.now) (triples_of list.now))))) }
    ensures past { IfErr result (λ fail. IsCause fail (polynomial_of (absolutes
        (terms_at (derivative_of der.now) (triples_of list.now))))) }
{
    let terms = terms_of(alloc, list, der)?;
    let coefficient = flat_of(alloc, terms.as_slice())?;
    let sizes = sizes_of(alloc, terms.as_slice())?;
    let bulk = flat_of(alloc, sizes.as_slice())?;
    Ok((coefficient, bulk.len()))
}

/// The sum of terms.
fn flat_of(alloc: Global, terms: &[(Mono, Whole)]) -> Result<Flat<Whole>, PolyFail>
    ensures value { IfOk result (λ flat. flat ≡ polynomial_of terms.now) }
    ensures fits { OnOk result (IsPolynomialWithinLimits (polynomial_of (absolutes terms.now))) }
    ensures past { IfErr result (λ fail. IsCause fail (polynomial_of (absolutes terms.now))) }
{
    Flat::of_terms(alloc, terms)
}

/// The terms of the triples of one derivative.
fn terms_of(
    alloc: Global,
    list: &[(Der, Mono, Whole)],
    der: &Der,
) -> Result<Vec<(Mono, Whole)>, NoMemory>
    ensures { IfOk result (λ terms. terms.items ≡ terms_at (derivative_of der.now) (triples_of list.now)) }
{
    let mut terms = Vec::new(alloc);
    for triple in list {
        push_of(&mut terms, alloc, triple, der)?;
    }
    Ok(terms)
}

/// Puts the term of a triple behind others, where the triple has the derivative.
fn push_of(
    terms: &mut Vec<(Mono, Whole)>,
    alloc: Global,
    triple: &(Der, Mono, Whole),
    der: &Der,
) -> Result<(), NoMemory>
    ensures { OnOk result (terms.new.items ≡ terms.old.items ++ terms_at (derivative_of der.now)
        ((derivative_of triple.now.0, triple.now.1, triple.now.2) ∷ [])) }
{
    if compare_derivatives(der, &triple.0).is_eq() {
        return push_term(terms, alloc, &triple.1, triple.2);
    }
    Ok(())
}

/// The terms with the absolute values of their numbers.
fn sizes_of(alloc: Global, terms: &[(Mono, Whole)]) -> Result<Vec<(Mono, Whole)>, NoMemory>
    ensures { IfOk result (λ sizes. sizes.items ≡ absolutes terms.now) }
{
    let mut sizes = Vec::new(alloc);
    for (mono, number) in terms {
        push_term(&mut sizes, alloc, mono, number.absolute())?;
    }
    Ok(sizes)
}

/// Puts a term behind others.
fn push_term(
    terms: &mut Vec<(Mono, Whole)>,
    alloc: Global,
    mono: &Mono,
    number: Whole,
) -> Result<(), NoMemory>
    ensures { OnOk result (terms.new.items ≡ terms.old.items ++ (mono.now, number) ∷ []) }
{
    let mono = mono.copy(alloc)?;
    terms.push((mono, number))?;
    Ok(())
}

/// Puts a derivative with its coefficient behind others, unless the coefficient is 0.
fn push_unless_zero(
    terms: &mut Vec<(Der, Flat<Whole>)>,
    der: &Der,
    coefficient: Flat<Whole>,
) -> Result<(), NoMemory>
    ensures { OnOk result (coefficients_of terms.new.items ≡ coefficients_of terms.old.items ++ unless_zero
        (derivative_of der.now) coefficient []) }
{
    if coefficient.len() == 0 {
        return Ok(());
    }
    terms.push((*der, coefficient))?;
    Ok(())
}
