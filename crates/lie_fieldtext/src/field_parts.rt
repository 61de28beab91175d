// The field that is the sum of terms, in lowest terms.
ghost use Rattle.std.specs.Prelude.{◌≡◌, ◌≤◌, ◌<◌, ◌+◌, ◌*◌, ◌/◌, ◌^◌, ℕ, pos, ◌*ℤ◌, unsigned_abs};
ghost use Rattle.std.specs.Prelude.{[], ◌∷◌, ◌++◌, length, get_or, map, IfOk};
ghost use Rattle.std.specs.List.{AllByRecursion as Every};
ghost use Rattle.std.specs.Int.{◌∣◌};
ghost use Rattle.lie_math.specs.Limits.{IsWithinLimits, absolutes, greatest_term_count};
ghost use Rattle.lie_math.specs.Polynomial.{polynomial_of, constant, 0ᴾ, ◌*ᴾ◌};
ghost use Rattle.lie_system.specs.Exponents.{HasSmallExponents};
ghost use Rattle.lie_fieldtext.specs.FieldMeaning.{terms_over, IsSumOfTerms};
ghost use Rattle.lie_fieldtext.specs.FieldAnswers.{IsTermOver, IsTermIn, ArePartsWithin, ArePartsOver};
ghost use Rattle.lie_fieldtext.specs.FieldAnswers.{content_from, contents_from, times_entries};

use crate::field_term::FieldTerm;
use crate::field_terms::FieldTerms;
use crate::fraction::common_divisor;
use lie_bytes::NoMemory;
use lie_jet::{Field, JetPoly, Space};
use lie_ring::{Mono, Polynomial, Ring, Whole};
use lie_system::sum_within_limits;
use std::alloc::Global;

// The number of a term over a denominator.
fn number_over(denominator: u128, term: &FieldTerm) -> Whole
    requires term { IsTermOver denominator term.now }
    requires small { denominator < 2 ^ 127 }
    ensures { result ≡ term.now.number *ℤ pos (denominator / term.now.over) }
{
    match Whole::new((denominator / term.over) as i128) {
        Some(factor) => match term.number.mul(&factor) {
            Some(product) => product,
            None => unreachable!(),
        },
        None => unreachable!(),
    }
}

// Puts a term behind others, over a denominator, where it has a place.
fn push_term(
    list: Vec<(Mono, Whole)>,
    alloc: Global,
    denominator: u128,
    place: u8,
    term: &FieldTerm,
) -> Result<Vec<(Mono, Whole)>, NoMemory>
    requires term { IsTermOver denominator term.now }
    requires small { denominator < 2 ^ 127 }
    ensures { IfOk result (λ new. new.items ≡ list.items ++ terms_over denominator place (term.now ∷ [])) }
{
    let mut list = list;
    if term.place == place {
        let monomial = term.monomial.copy(alloc)?;
        list.push((monomial, number_over(denominator, term)))?;
    }
    Ok(list)
}

// The sum of the terms at a place, over a denominator.
fn part_of(
    alloc: Global,
    denominator: u128,
    place: u8,
    terms: &[FieldTerm],
) -> Result<JetPoly, NoMemory>
    requires terms { Every (IsTermOver denominator) terms.now }
    requires small { denominator < 2 ^ 127 }
    requires within { IsWithinLimits (polynomial_of (absolutes (terms_over denominator place terms.now))) }
    ensures { IfOk result (λ part. part ≡ polynomial_of (terms_over denominator place terms.now)) }
{
    let mut list: Vec<(Mono, Whole)> = Vec::new(alloc);
    for term in terms {
        list = push_term(list, alloc, denominator, place, term)?;
    }
    sum_within_limits(alloc, list.as_slice())
}

// The sums of the terms at each place.
fn parts_of(
    alloc: Global,
    denominator: u128,
    count: u8,
    terms: &[FieldTerm],
) -> Result<Vec<JetPoly>, NoMemory>
    requires terms { Every (IsTermOver denominator) terms.now }
    requires small { denominator < 2 ^ 127 }
    requires within { ArePartsWithin denominator terms.now }
    ensures { IfOk result (λ parts. ArePartsOver denominator terms.now count parts.items) }
{
    let mut parts: Vec<JetPoly> = Vec::new(alloc);
    let mut place = 0;
    while place < count {
        parts.push(part_of(alloc, denominator, place, terms)?)?;
        place += 1;
    }
    Ok(parts)
}

// The greatest common divisor of a number and of all coefficients.
fn divisor_of(alloc: Global, number: u128, part: &JetPoly) -> Result<u128, NoMemory>
    requires { 1 ≤ number }
    ensures value { IfOk result (λ g. g ≡ content_from number part.now.list) }
    ensures some { IfOk result (λ g. 1 ≤ g) }
{
    let mut divisor = number;
    let terms = part.terms(alloc)?;
    for term in terms.as_slice() {
        divisor = common_divisor(term.1.size(), divisor);
    }
    Ok(divisor)
}

// The greatest common divisor of a number and of all coefficients of all parts.
fn divisor_of_all(alloc: Global, number: u128, parts: &[JetPoly]) -> Result<u128, NoMemory>
    requires { 1 ≤ number }
    ensures value { IfOk result (λ g. g ≡ contents_from number parts.now) }
    ensures some { IfOk result (λ g. 1 ≤ g) }
{
    let mut divisor = number;
    for part in parts {
        divisor = divisor_of(alloc, divisor, part)?;
    }
    Ok(divisor)
}

// A number divided by one of at least 1 that divides it.
fn quotient(number: Whole, divisor: u128) -> Whole
    requires some { 1 ≤ divisor }
    requires small { divisor < 2 ^ 127 }
    requires divides { divisor ∣ unsigned_abs number }
    ensures { pos divisor *ℤ result ≡ number }
{
    match Whole::new(divisor as i128) {
        Some(divisor) => number.exact_quotient(divisor),
        None => unreachable!(),
    }
}

// The list with one more entry, divided by a number that divides it.
fn push_divided(
    list: Vec<(Mono, Whole)>,
    alloc: Global,
    divisor: u128,
    term: &(Mono, Whole),
) -> Result<Vec<(Mono, Whole)>, NoMemory>
    requires some { 1 ≤ divisor }
    requires small { divisor < 2 ^ 127 }
    requires divides { divisor ∣ unsigned_abs term.now.1 }
    ensures { IfOk result (λ new. times_entries divisor new.items ≡ times_entries divisor list.items ++ term.now ∷ []) }
{
    let mut list = list;
    let monomial = term.0.copy(alloc)?;
    list.push((monomial, quotient(term.1, divisor)))?;
    Ok(list)
}

// A part divided by a number that divides each coefficient.
fn divided(alloc: Global, divisor: u128, part: &JetPoly) -> Result<JetPoly, NoMemory>
    requires some { 1 ≤ divisor }
    requires small { divisor < 2 ^ 127 }
    requires divides { Every (λ e. divisor ∣ unsigned_abs e.1) part.now.list }
    ensures { IfOk result (λ rest. constant (pos divisor) *ᴾ rest ≡ part.now) }
{
    let mut list: Vec<(Mono, Whole)> = Vec::new(alloc);
    part.is_within_limits();
    let terms = part.terms(alloc)?;
    for term in terms.as_slice() {
        list = push_divided(list, alloc, divisor, term)?;
    }
    sum_within_limits(alloc, list.as_slice())
}

// The parts divided by a number that divides each coefficient.
fn all_divided(alloc: Global, divisor: u128, parts: &[JetPoly]) -> Result<Vec<JetPoly>, NoMemory>
    requires some { 1 ≤ divisor }
    requires small { divisor < 2 ^ 127 }
    requires divides { Every (λ p. Every (λ e. divisor ∣ unsigned_abs e.1) p.list) parts.now }
    ensures { IfOk result (λ new. map (λ q. constant (pos divisor) *ᴾ q) new.items ≡ parts.now) }
{
    let mut quotients: Vec<JetPoly> = Vec::new(alloc);
    for part in parts {
        quotients.push(divided(alloc, divisor, part)?)?;
    }
    Ok(quotients)
}

/// The field in lowest terms that is the sum of terms.
pub fn field_of(alloc: Global, space: Space, terms: &FieldTerms) -> Result<Field, NoMemory>
    requires terms { Every (IsTermIn (space.p + space.q)) terms.now.list.items }
    requires small { Every (λ t. HasSmallExponents t.monomial) terms.now.list.items }
    requires few { length terms.now.list.items ≤ greatest_term_count }
    ensures { IfOk result (IsSumOfTerms space terms.now.list.items) }
{
    let parts = parts_of(
        alloc,
        terms.denominator,
        space.p + space.q,
        terms.list.as_slice(),
    )?;
    let divisor = divisor_of_all(alloc, terms.denominator, parts.as_slice())?;
    let quotients = all_divided(alloc, divisor, parts.as_slice())?;
    Ok(Field::new(terms.denominator / divisor, quotients))
}
