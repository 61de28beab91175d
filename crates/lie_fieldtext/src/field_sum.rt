// Sums of terms with base vectors.
ghost use Rattle.std.specs.Prelude.{◌≡◌, ◌≤◌, length};
ghost use Rattle.lie_scan.specs.Stops.{Reads};
ghost use Rattle.lie_scan.specs.Turns.{all_turns};
ghost use Rattle.lie_fieldtext.specs.FieldReading.{signed_at, term_turn, first_sign_at, sum_of, is_zero, terms_of};
ghost use Rattle.lie_fieldtext.specs.FieldAnswers.{sum_turn_of};

use crate::field_term::field_term_at;
use crate::field_terms::FieldTerms;
use lie_scan::fault::BadKind;
use lie_scan::runs::after_blanks;
use lie_scan::stop::{LineFail, stop_at};
use std::alloc::Global;

// The terms and the one in front, and what is behind.
#[tactic(auto, unfolding(crate::specs::FieldReading::signed_at))]
fn signed_at<'a>(
    alloc: Global,
    names: &[u8],
    negative: bool,
    terms: FieldTerms,
    text: &'a [u8],
) -> Result<(FieldTerms, &'a [u8]), LineFail>
    requires { length names.now ≤ 8 }
    ensures { Reads (λ x. (x.0.list.items, x.1.now)) result (signed_at names.now negative terms.list.items text.now) }
{
    let (term, rest) = field_term_at(alloc, names, negative, text)?;
    match terms.with_term(alloc, term)? {
        Some(more) => Ok((more, rest)),
        None => Err(LineFail::Fault(stop_at(BadKind::Number, after_blanks(text)))),
    }
}

// The terms and a further one, and what is behind; without what is behind at the end of the text.
fn next_term<'a>(
    alloc: Global,
    names: &[u8],
    terms: FieldTerms,
    text: &'a [u8],
) -> Result<(FieldTerms, Option<&'a [u8]>), LineFail>
    requires { length names.now ≤ 8 }
    ensures { Reads (λ x. sum_turn_of x.0.list.items x.1) result (term_turn names.now terms.list.items text.now) }
{
    match after_blanks(text) {
        [] => Ok((terms, None)),
        [b'+', behind @ ..] => {
            let (more, rest) = signed_at(alloc, names, false, terms, behind)?;
            Ok((more, Some(rest)))
        }
        [b'-', behind @ ..] => {
            let (more, rest) = signed_at(alloc, names, true, terms, behind)?;
            Ok((more, Some(rest)))
        }
        rest => Err(LineFail::Fault(stop_at(BadKind::Syntax, rest))),
    }
}

// The terms and the further ones of a text.
fn terms_at(
    alloc: Global,
    names: &[u8],
    terms: FieldTerms,
    text: &[u8],
) -> Result<FieldTerms, LineFail>
    requires { length names.now ≤ 8 }
    ensures { Reads (λ t. t.list.items) result (all_turns (term_turn names.now) terms.list.items text.now) }
{
    let mut found = terms;
    let mut rest = text;
    'terms: loop {
        let (more, behind) = next_term(alloc, names, found, rest)?;
        found = more;
        match behind {
            Some(after) => rest = after,
            None => return Ok(found),
        }
    }
}

// Whether a sum begins with a minus, and what is behind its sign.
#[tactic(auto, unfolding(crate::specs::FieldReading::first_sign_at))]
fn first_sign_at(text: &[u8]) -> (bool, &[u8])
    ensures { (result.0, result.1.now) ≡ first_sign_at text.now }
{
    match after_blanks(text) {
        [b'-', rest @ ..] => (true, rest),
        [b'+', rest @ ..] => (false, rest),
        _ => (false, text),
    }
}

// The terms of a sum.
#[tactic(auto, unfolding(crate::specs::FieldReading::sum_of))]
fn sum_of(alloc: Global, names: &[u8], text: &[u8]) -> Result<FieldTerms, LineFail>
    requires { length names.now ≤ 8 }
    ensures { Reads (λ t. t.list.items) result (sum_of names.now text.now) }
{
    let (negative, first) = first_sign_at(text);
    let (found, rest) = signed_at(alloc, names, negative, FieldTerms::new(alloc), first)?;
    terms_at(alloc, names, found, rest)
}

// Whether a text is the one token `0`.
fn is_zero(text: &[u8]) -> bool
    ensures { result ≡ is_zero text.now }
{
    match after_blanks(text) {
        [b'0', rest @ ..] => after_blanks(rest).is_empty(),
        _ => false,
    }
}

/// The terms of a text, none for `0`.
#[tactic(auto, unfolding(crate::specs::FieldReading::terms_of))]
pub fn terms_of(alloc: Global, names: &[u8], text: &[u8]) -> Result<FieldTerms, LineFail>
    requires { length names.now ≤ 8 }
    ensures { Reads (λ t. t.list.items) result (terms_of names.now text.now) }
{
    if is_zero(text) {
        Ok(FieldTerms::new(alloc))
    } else {
        sum_of(alloc, names, text)
    }
}
