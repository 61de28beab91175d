// Linear forms from their terms.
ghost use Rattle.std.specs.Prelude.{◌≡◌, ◌<◌, ◌≤◌, ◌^◌, ◌++◌, IfOk, map, ◌∷◌, true, MatchBool, option_map, []};
ghost use Rattle.std.specs.List.{AllByRecursion as Every};
ghost use Rattle.lie_math.specs.Limits.{IsWithinLimits};
ghost use Rattle.lie_math.specs.LinearForm.{LinearForm};
ghost use Rattle.lie_jet.specs.Derivatives.{derivative_of};
ghost use Rattle.lie_lin.specs.Forms.{coefficients_of, AreCoefficients};
ghost use Rattle.lie_print.specs.PrintedTerms.{printed, last_of};
ghost use Rattle.lie_readback.specs.Readings.{Reads, Finds};
ghost use Rattle.lie_readback.specs.DraftViews.{terms_seen};
ghost use Rattle.lie_readback.specs.Groups.{derivative_in, joined, grouped, group_seen, parts_of, written_terms};
ghost use Rattle.lie_readback.specs.WellFormed.{IsReportedForm, IsKeptCoefficient};

use crate::unread::Unread;
use lie_bytes::NoMemory;
use lie_jet::{Der, JetPoly, compare_derivatives};
use lie_lin::{LinEq, form_triple_count};
use lie_print::printed_term::{LastFactor, Term};
use lie_ring::{Mono, PolyFail, Polynomial, Whole};
use std::alloc::Global;
use std::cmp::Ordering;

/// The most terms of a form.
const MAX_TERMS: u128 = 1_000_000;

// The derivative that a last factor is.
fn derivative_in(last: &Option<LastFactor>) -> Result<Der, Unread>
    ensures { Reads derivative_of result (derivative_in (option_map last_of last.now)) }
{
    match last {
        Some(LastFactor::Derivative(unknown, counts)) => {
            if *unknown < 1 << 32 {
                Ok(Der {
                    unknown: *unknown as u32,
                    counts: *counts,
                })
            } else {
                Err(Unread::Other)
            }
        }
        _ => Err(Unread::Other),
    }
}

// The groups, and one more with a term.
fn begun(
    alloc: Global,
    groups: Vec<(Der, Vec<(Mono, Whole)>)>,
    der: Der,
    term: (Mono, Whole),
) -> Result<Vec<(Der, Vec<(Mono, Whole)>)>, NoMemory>
    ensures { IfOk result (λ gs. map group_seen gs.items ≡ map group_seen groups.items ++ (derivative_of der, term ∷ []) ∷ []) }
{
    let mut list = Vec::new(alloc);
    list.push(term)?;
    let mut groups = groups;
    groups.push((der, list))?;
    Ok(groups)
}

// The groups, and one more with a further term.
fn grown(
    groups: Vec<(Der, Vec<(Mono, Whole)>)>,
    der: Der,
    list: Vec<(Mono, Whole)>,
    term: (Mono, Whole),
) -> Result<Vec<(Der, Vec<(Mono, Whole)>)>, NoMemory>
    ensures { IfOk result (λ gs. map group_seen gs.items
        ≡ map group_seen groups.items ++ (derivative_of der, list.items ++ term ∷ []) ∷ []) }
{
    let mut list = list;
    list.push(term)?;
    let mut groups = groups;
    groups.push((der, list))?;
    Ok(groups)
}

// The groups and a last one, which a term joins if that has its derivative; it begins one of its own if not.
fn joined_last(
    alloc: Global,
    groups: Vec<(Der, Vec<(Mono, Whole)>)>,
    last: (Der, Vec<(Mono, Whole)>),
    der: Der,
    term: (Mono, Whole),
) -> Result<Vec<(Der, Vec<(Mono, Whole)>)>, NoMemory>
    ensures { IfOk result (λ gs. map group_seen gs.items
        ≡ joined (map group_seen groups.items ++ group_seen last ∷ []) (derivative_of der) term) }
{
    match compare_derivatives(&last.0, &der) {
        Ordering::Equal => grown(groups, last.0, last.1, term),
        _ => {
            let mut groups = groups;
            groups.push(last)?;
            begun(alloc, groups, der, term)
        }
    }
}

// The groups, where a term joins the last one if that has its derivative, and begins one if not.
fn joined(
    alloc: Global,
    groups: Vec<(Der, Vec<(Mono, Whole)>)>,
    der: Der,
    term: (Mono, Whole),
) -> Result<Vec<(Der, Vec<(Mono, Whole)>)>, NoMemory>
    ensures { IfOk result (λ gs. map group_seen gs.items ≡ joined (map group_seen groups.items) (derivative_of der) term) }
{
    let mut groups = groups;
    match groups.pop() {
        Some(last) => joined_last(alloc, groups, last, der, term),
        None => begun(alloc, groups, der, term),
    }
}

// The terms in groups of one derivative each.
fn grouped(alloc: Global, terms: Vec<Term>) -> Result<Vec<(Der, Vec<(Mono, Whole)>)>, Unread>
    ensures { Reads (λ gs. map group_seen gs.items) result (grouped [] (map printed terms.items)) }
{
    let mut groups = Vec::new(alloc);
    for term in terms {
        let der = derivative_in(&term.last)?;
        let more = joined(alloc, groups, der, (term.monomial, term.number))?;
        groups = more;
    }
    Ok(groups)
}

/// The sum of terms.
pub fn sum_of(alloc: Global, terms: &[(Mono, Whole)]) -> Result<JetPoly, Unread>
    ensures { Finds (λ P. P) IsWithinLimits (λ P. P.list) terms.now result }
{
    match JetPoly::of_terms(alloc, terms) {
        Ok(sum) => Ok(sum),
        Err(PolyFail::Past(_)) => Err(Unread::Other),
        Err(PolyFail::NoMemory) => Err(Unread::NoMemory),
    }
}

// The coefficients whose terms are groups.
fn coefficients_of(
    alloc: Global,
    groups: &[(Der, Vec<(Mono, Whole)>)],
) -> Result<Vec<(Der, JetPoly)>, Unread>
    ensures { Finds (λ es. coefficients_of es.items) (Every (λ e. IsWithinLimits e.1)) parts_of (map group_seen groups.now) result }
{
    let mut coefficients = Vec::new(alloc);
    let mut i = 0;
    while i < groups.len() {
        let group = &groups[i];
        let sum = sum_of(alloc, group.1.as_slice())?;
        coefficients.push((group.0, sum))?;
        i += 1;
    }
    Ok(coefficients)
}

// Counts are kept in 8 bits, which becomes known where this is called.
fn counts_are_kept(counts: &[u8])
    ensures { Every (λ c. c < 2 ^ 8) counts.now }
{}

// An unknown's number is kept in 32 bits, which becomes known where this is called.
fn unknown_is_kept(unknown: u32)
    ensures { unknown < 2 ^ 32 }
{}

// What a derivative and its coefficient keep becomes known where this is called.
fn is_kept(coefficient: &(Der, JetPoly))
    ensures { IsKeptCoefficient coefficient.now }
{
    unknown_is_kept(coefficient.0.unknown);
    counts_are_kept(&coefficient.0.counts);
    coefficient.1.is_within_limits();
}

// Whether the first coefficient is not 0, and its derivative is greater than that of the next one, where the others are in order.
fn is_before(first: &(Der, JetPoly), rest: &[(Der, JetPoly)]) -> bool
    requires { AreCoefficients rest.now }
    ensures { MatchBool result (AreCoefficients (first.now ∷ rest.now)) (¬ (AreCoefficients (first.now ∷ rest.now))) }
{
    if first.1.len() == 0 {
        return false;
    }
    match rest {
        [next, ..] => match compare_derivatives(&first.0, &next.0) {
            Ordering::Less => true,
            _ => false,
        },
        [] => true,
    }
}

// Whether the derivatives fall, and no coefficient is 0.
fn are_coefficients(coefficients: &[(Der, JetPoly)]) -> bool
    ensures decided { MatchBool result (AreCoefficients coefficients.now) (¬ (AreCoefficients coefficients.now)) }
    ensures kept { result ≡ true → Every IsKeptCoefficient coefficients.now }
{
    let mut i = coefficients.len();
    while i > 0 {
        i -= 1;
        is_kept(&coefficients[i]);
        if !is_before(&coefficients[i], &coefficients[i + 1..]) {
            return false;
        }
    }
    true
}

// The form whose terms these are.
fn form_of(alloc: Global, terms: Vec<Term>) -> Result<LinEq, Unread>
    ensures value { Finds (λ E. E) IsReportedForm written_terms (map printed terms.items) result }
    ensures kept { IfOk result IsReportedForm }
{
    let groups = grouped(alloc, terms)?;
    let coefficients = coefficients_of(alloc, groups.as_slice())?;
    if !are_coefficients(coefficients.as_slice()) {
        return Err(Unread::Other);
    }
    let form = LinEq::of_terms(coefficients);
    if form_triple_count(&form) > MAX_TERMS {
        return Err(Unread::Other);
    }
    Ok(form)
}

/// The forms whose terms these are.
pub fn forms_of(alloc: Global, drafts: Vec<Vec<Term>>) -> Result<Vec<LinEq>, Unread>
    ensures value { Finds (λ Es. Es.items) (Every IsReportedForm) (map written_terms) (map terms_seen drafts.items) result }
    ensures kept { IfOk result (λ Es. Every IsReportedForm Es.items) }
{
    let mut forms = Vec::new(alloc);
    for terms in drafts {
        let form = form_of(alloc, terms)?;
        forms.push(form)?;
    }
    Ok(forms)
}
