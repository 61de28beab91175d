// Integrals of linear forms by a variable, and the numbers that make them whole.
ghost use Rattle.std.specs.Prelude.{◌≡◌, ◌++◌, ◌∷◌, [], ◌*◌, ◌<◌, ◌^◌, ◌*ℤ◌, neg_ℤ, pos, unsigned_abs, List, MatchOption, IfOk, IfErr};
ghost use Rattle.std.specs.Prelude.{OnOk};
ghost use Rattle.std.specs.Int.{◌∣◌};
ghost use Rattle.std.specs.List.{AllByRecursion as Every};
ghost use Rattle.lie_math.specs.Limits.{absolutes, absolute};
ghost use Rattle.lie_math.specs.Polynomial.{polynomial_of};
ghost use Rattle.lie_systems.specs.Normalised.{sign};
ghost use Rattle.lie_systems.specs.Triples.{Triple, triples as triples_in_form};
ghost use Rattle.lie_ring.specs.Causes.{IsCause};
ghost use Rattle.lie_ring.specs.Numbers.{IsExact};
ghost use Rattle.lie_jet.specs.Derivatives.{derivative_of};
ghost use Rattle.lie_form.specs.FormLimits.{IsFormCoefficientCause};
ghost use Rattle.lie_lin.specs.Forms.{triples_of};
ghost use Rattle.lie_steps.specs.Bulks.{absolute_form};
ghost use Rattle.lie_steps.specs.Integrate.{rising, divisor, Clears, integral};
ghost use Rattle.lie_integral.specs.Fractions.{IsPositive, IsFraction, NoneClears};
ghost use Rattle.lie_integral.specs.Integrals.{integrated_term, integrated_polynomial, ClearsTerm, IsDenominator, IsWide};

use crate::fractions::{Fraction, common_multiple, over, whole_fraction};
use lie_jet::Der;
use lie_lin::LinEq;
use lie_normal::Coefficient;
use lie_ring::{Mono, PastKind, PolyFail, Polynomial, Ring, Whole};
use std::alloc::Global;

/// An integration by a variable, so many times, over minus a number that is not 0.
#[derive(Clone, Copy, PartialEq, Eq, Debug)]
pub struct Integration {
    /// The number.
    pub number: Whole,
    /// The variable.
    pub var: u8,
    /// How often it is integrated.
    pub times: u8,
}

/// A number of 64 bits.
fn whole_of(number: u64) -> Whole
    ensures { result ≡ pos number }
{
    match Whole::new(i128::from(number)) {
        Some(whole) => whole,
        None => unreachable!(),
    }
}

/// A number times minus the sign of another.
fn turned_against(other: Whole, number: Whole) -> Whole
    ensures { result ≡ neg_ℤ (sign other) *ℤ number }
{
    if other.get() < 0 {
        number
    } else {
        number.neg()
    }
}

/// The number before the integral of a number times a power of the variable, in lowest terms; None exactly where its divisor is past
/// 2^127 - 1.
fn integrated_fraction(integration: &Integration, number: Whole, exponent: u32) -> Option<Fraction>
    requires { ¬ (integration.now.number ≡ pos 0) }
    ensures { MatchOption result
        (NoneClears (unsigned_abs integration.now.number * rising exponent integration.now.times) (unsigned_abs number))
        (IsFraction (neg_ℤ (sign integration.now.number) *ℤ number)
        (unsigned_abs integration.now.number * rising exponent integration.now.times)) }
{
    let turned = turned_against(integration.number, number);
    let mut fraction = over(whole_fraction(turned), integration.number.absolute())?;
    for step in 0..integration.times {
        let factor = whole_of(u64::from(exponent) + u64::from(step) + 1);
        fraction = over(fraction, factor)?;
    }
    Some(fraction)
}

/// The least number that makes the integral of triples whole; None exactly where it is past 2^127 - 1.
pub fn least_denominator(integration: &Integration, list: &[(Der, Mono, Whole)]) -> Option<Whole>
    requires { ¬ (integration.now.number ≡ pos 0) }
    ensures { MatchOption result (IsWide integration.now.number integration.now.var integration.now.times (triples_of list.now))
        (IsDenominator integration.now.number integration.now.var integration.now.times (triples_of list.now)) }
{
    let mut denominator = Whole::one();
    for triple in list {
        denominator = denominator_with(integration, denominator, triple)?;
    }
    Some(denominator)
}

/// The least number that makes the integral of one triple more whole.
fn denominator_with(
    integration: &Integration,
    denominator: Whole,
    triple: &(Der, Mono, Whole),
) -> Option<Whole>
    requires apart { ¬ (integration.now.number ≡ pos 0) }
    requires positive { IsPositive denominator }
    ensures { (ts : List Triple) → IsDenominator integration.now.number integration.now.var integration.now.times ts denominator
        → MatchOption result
        (IsWide integration.now.number integration.now.var integration.now.times
        (ts ++ (derivative_of triple.now.0, triple.now.1, triple.now.2) ∷ []))
        (IsDenominator integration.now.number integration.now.var integration.now.times
        (ts ++ (derivative_of triple.now.0, triple.now.1, triple.now.2) ∷ [])) }
{
    let exponent = triple.1.exponent(u32::from(integration.var));
    let fraction = integrated_fraction(integration, triple.2, exponent)?;
    common_multiple(denominator, fraction.divisor)
}

/// The integral of a form, times a number that makes it whole. An error has its cause in a coefficient of it, with absolute values.
pub fn integral_of(
    alloc: Global,
    integration: &Integration,
    denominator: Whole,
    form: &LinEq,
) -> Result<LinEq, PolyFail>
    requires apart { ¬ (integration.now.number ≡ pos 0) }
    requires positive { IsPositive denominator }
    requires clears { Clears integration.now.number integration.now.var integration.now.times (triples_in_form form.now)
        (unsigned_abs denominator) }
    ensures integral { IfOk result (λ made. made
        ≡ integral integration.now.number integration.now.var integration.now.times (unsigned_abs denominator) form.now) }
    ensures past { IfErr result (λ fail. IsFormCoefficientCause fail (absolute_form
        (integral integration.now.number integration.now.var integration.now.times (unsigned_abs denominator) form.now))) }
{
    let mut terms = Vec::new(alloc);
    for term in form.terms() {
        let coefficient = integrated_polynomial(alloc, integration, denominator, &term.1)?;
        terms.push((term.0, coefficient))?;
    }
    Ok(LinEq::of_terms(terms))
}

/// The integral of a polynomial, times a number that makes it whole.
fn integrated_polynomial(
    alloc: Global,
    integration: &Integration,
    denominator: Whole,
    poly: &Coefficient,
) -> Result<Coefficient, PolyFail>
    requires apart { ¬ (integration.now.number ≡ pos 0) }
    requires positive { IsPositive denominator }
    requires clears { Every (ClearsTerm integration.now.number integration.now.var integration.now.times (unsigned_abs denominator))
        poly.now.list }
    ensures integral { IfOk result (λ made. made
        ≡ integrated_polynomial integration.now.number integration.now.var integration.now.times (unsigned_abs denominator) poly.now) }
    ensures past { IfErr result (λ fail. IsCause fail (absolute
        (integrated_polynomial integration.now.number integration.now.var integration.now.times (unsigned_abs denominator) poly.now))) }
{
    let list = poly.terms(alloc)?;
    let mut terms = Vec::new(alloc);
    for term in list.as_slice() {
        push_integrated(&mut terms, alloc, integration, denominator, term)?;
    }
    Coefficient::of_terms(alloc, terms.as_slice())
}

/// Puts the integral of a term behind others, times a number that makes it whole.
fn push_integrated(
    terms: &mut Vec<(Mono, Whole)>,
    alloc: Global,
    integration: &Integration,
    denominator: Whole,
    term: &(Mono, Whole),
) -> Result<(), PolyFail>
    requires apart { ¬ (integration.now.number ≡ pos 0) }
    requires counts { ¬ (term.now.1 ≡ pos 0) }
    requires positive { IsPositive denominator }
    requires clears { ClearsTerm integration.now.number integration.now.var integration.now.times (unsigned_abs denominator) term.now }
    ensures pushed { OnOk result (terms.new.items ≡ terms.old.items
        ++ integrated_term integration.now.number integration.now.var integration.now.times (unsigned_abs denominator) term.now ∷ []) }
    ensures past { IfErr result (λ fail. IsCause fail (polynomial_of (absolutes
        (integrated_term integration.now.number integration.now.var integration.now.times (unsigned_abs denominator) term.now ∷ [])))) }
{
    let number = match integrated_multiple(integration, denominator, term) {
        Some(number) => number,
        None => return Err(PolyFail::Past(PastKind::Coefficient)),
    };
    let power = Mono::power(
        alloc,
        u32::from(integration.var),
        u32::from(integration.times),
    );
    let mono = power.times(alloc, &term.0)?;
    terms.push((mono, number))?;
    Ok(())
}

/// The number of the integral of a term, times a number that makes it whole; None exactly where it is past 2^127 - 1.
fn integrated_multiple(
    integration: &Integration,
    denominator: Whole,
    term: &(Mono, Whole),
) -> Option<Whole>
    requires apart { ¬ (integration.now.number ≡ pos 0) }
    requires positive { IsPositive denominator }
    requires clears { ClearsTerm integration.now.number integration.now.var integration.now.times (unsigned_abs denominator) term.now }
    ensures { IsExact (λ w. w) result
        (integrated_term integration.now.number integration.now.var integration.now.times (unsigned_abs denominator) term.now).1 }
{
    denominator.fits();
    let exponent = term.0.exponent(u32::from(integration.var));
    let fraction = match integrated_fraction(integration, term.1, exponent) {
        Some(fraction) => fraction,
        None => unreachable!(),
    };
    fraction
        .number
        .mul(&denominator.exact_quotient(fraction.divisor))
}
