// Fields from their terms.
ghost use Rattle.std.specs.Prelude.{◌≡◌, ◌<◌, ◌++◌, ltb, IfOk, OnOk, MatchBool, map, length, option_map};
ghost use Rattle.std.specs.List.{AllByRecursion as Every};
ghost use Rattle.lie_math.specs.Variables.{IsIn};
ghost use Rattle.lie_lin.specs.Validity.{AreLow};
ghost use Rattle.lie_print.specs.PrintedTerms.{printed, last_of};
ghost use Rattle.lie_readback.specs.Readings.{Finds};
ghost use Rattle.lie_readback.specs.DraftViews.{terms_seen};
ghost use Rattle.lie_read_report.specs.FieldTerms.{is_at, term_at, terms_at, parts_from, written_field};
ghost use Rattle.lie_read_report.specs.WellFormed.{IsReportedPart, IsReportedField};

use lie_bytes::NoMemory;
use lie_jet::{Field, JetPoly};
use lie_print::printed_term::{LastFactor, Term};
use lie_readback::forms::sum_of;
use lie_readback::unread::Unread;
use lie_ring::{Mono, Polynomial, Whole};
use std::alloc::Global;

// Whether a last factor is the base vector at a variable.
fn is_at(place: usize, last: &Option<LastFactor>) -> bool
    ensures { result ≡ is_at place (option_map last_of last.now) }
{
    match last {
        Some(LastFactor::BaseVector(at)) => *at == place,
        _ => false,
    }
}

// Puts a term behind others, where it has the base vector at a variable.
fn push_at(
    list: &mut Vec<(Mono, Whole)>,
    alloc: Global,
    place: usize,
    term: &Term,
) -> Result<(), NoMemory>
    ensures { OnOk result (list.new.items ≡ list.old.items ++ term_at place (printed term.now)) }
{
    if !is_at(place, &term.last) {
        return Ok(());
    }
    let monomial = term.monomial.copy(alloc)?;
    list.push((monomial, term.number))?;
    Ok(())
}

// The terms with the base vector at a variable.
fn terms_at(alloc: Global, place: usize, terms: &[Term]) -> Result<Vec<(Mono, Whole)>, NoMemory>
    ensures { IfOk result (λ es. es.items ≡ terms_at place (map printed terms.now)) }
{
    let mut list = Vec::new(alloc);
    for term in terms {
        push_at(&mut list, alloc, place, term)?;
    }
    Ok(list)
}

// Whether the variables of a monomial are below a number.
fn is_monomial_below(monomial: &Mono, bound: usize) -> bool
    ensures { MatchBool result (AreLow bound monomial.now.list) (¬ (AreLow bound monomial.now.list)) }
{
    for pair in monomial.pairs() {
        if pair.0 as usize >= bound {
            return false;
        }
    }
    true
}

// Whether the variables of a polynomial are below a number.
fn is_below(alloc: Global, sum: &JetPoly, bound: usize) -> Result<bool, NoMemory>
    ensures { IfOk result (λ low. MatchBool low (IsIn (λ v. ltb v bound) sum.now) (¬ (IsIn (λ v. ltb v bound) sum.now))) }
{
    let terms = sum.terms(alloc)?;
    for term in terms.as_slice() {
        if !is_monomial_below(&term.0, bound) {
            return Ok(false);
        }
    }
    Ok(true)
}

// The part of a field of `size` parts at a variable.
fn part_at(alloc: Global, size: usize, place: usize, terms: &[Term]) -> Result<JetPoly, Unread>
    ensures value { Finds (λ P. P) (IsReportedPart size) (λ P. P.list) (terms_at place (map printed terms.now)) result }
    ensures kept { IfOk result (IsReportedPart size) }
{
    let list = terms_at(alloc, place, terms)?;
    let sum = sum_of(alloc, list.as_slice())?;
    sum.is_within_limits();
    let low = is_below(alloc, &sum, size)?;
    if !low {
        return Err(Unread::Other);
    }
    Ok(sum)
}

// The parts of a field with so many.
fn parts_in(alloc: Global, size: usize, terms: &[Term]) -> Result<Vec<JetPoly>, Unread>
    ensures value { Finds (λ Ps. Ps.items) (Every (IsReportedPart size)) (map (λ P. P.list))
        (parts_from size 0 (map printed terms.now)) result }
    ensures kept { IfOk result (λ Ps. Every (IsReportedPart size) Ps.items) }
    ensures many { IfOk result (λ Ps. length Ps.items ≡ size) }
{
    let mut parts = Vec::new(alloc);
    let mut i = 0;
    while i < size {
        let part = part_at(alloc, size, i, terms)?;
        parts.push(part)?;
        i += 1;
    }
    Ok(parts)
}

// The field of `size` parts that has these terms.
fn field_of(alloc: Global, size: usize, terms: Vec<Term>) -> Result<Field, Unread>
    ensures value { Finds (λ V. V) (IsReportedField size) written_field (terms_seen terms) result }
    ensures kept { IfOk result (IsReportedField size) }
{
    let parts = parts_in(alloc, size, terms.as_slice())?;
    Ok(Field::new(1, parts))
}

/// The fields of `size` parts that have these terms.
pub fn fields_of(alloc: Global, size: usize, drafts: Vec<Vec<Term>>) -> Result<Vec<Field>, Unread>
    ensures value { Finds (λ Vs. Vs.items) (Every (IsReportedField size)) (map written_field) (map terms_seen drafts.items) result }
    ensures kept { IfOk result (λ Vs. Every (IsReportedField size) Vs.items) }
{
    let mut fields = Vec::new(alloc);
    for terms in drafts {
        let field = field_of(alloc, size, terms)?;
        fields.push(field)?;
    }
    Ok(fields)
}
