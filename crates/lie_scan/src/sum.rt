// Sums of terms, and equations.
ghost use Rattle.std.specs.Prelude.{◌≡◌, ◌+◌, length};
ghost use Rattle.lie_scan.specs.Stops.{Reads};
ghost use Rattle.lie_scan.specs.Turns.{all_turns};
ghost use Rattle.lie_scan.specs.Answers.{term_turn_of};
ghost use Rattle.lie_scan.specs.Terms.{signed_term_at, first_sign_of, term_by, sum_at, equation_end, equation_of};

use crate::fault::BadKind;
use crate::runs::after_blanks;
use crate::stop::{LineFail, stop_at};
use crate::term::term_at;
use crate::terms::Terms;
use lie_jet::Space;
use std::alloc::Global;

// The terms and the one in front, and what is behind it and blanks.
#[tactic(auto, unfolding(crate::specs::Terms::signed_term_at))]
fn signed_term_at<'a>(
    alloc: Global,
    space: Space,
    names: &[u8],
    negative: bool,
    terms: Terms,
    text: &'a [u8],
) -> Result<(Terms, &'a [u8]), LineFail>
    requires { length names.now ≡ space.p + space.q }
    ensures { Reads (λ x. (x.0.list.items, x.1.now)) result (signed_term_at space names.now negative terms.list.items text.now) }
{
    let text = after_blanks(text);
    let (number, mono, rest) = term_at(alloc, space, names, text)?;
    match terms.with_term(alloc, negative, number, mono)? {
        Some(more) => Ok((more, rest)),
        None => Err(LineFail::Fault(stop_at(BadKind::Number, text))),
    }
}

// Whether a sum begins with a minus, and what is behind its sign.
fn first_sign_of(text: &[u8]) -> (bool, &[u8])
    ensures { (result.0, result.1.now) ≡ first_sign_of text.now }
{
    match text {
        [b'-', rest @ ..] => (true, rest),
        [b'+', rest @ ..] => (false, rest),
        _ => (false, text),
    }
}

// The terms and a further one of a sum, and what is behind; without what is behind at the end of the sum.
fn next_term<'a>(
    alloc: Global,
    space: Space,
    names: &[u8],
    turned: bool,
    terms: Terms,
    text: &'a [u8],
) -> Result<(Terms, Option<&'a [u8]>), LineFail>
    requires { length names.now ≡ space.p + space.q }
    ensures { Reads (λ x. term_turn_of text.now x.0.list.items x.1) result (term_by space names.now turned terms.list.items text.now) }
{
    match text {
        [b'+', behind @ ..] => {
            let (more, rest) = signed_term_at(alloc, space, names, turned, terms, behind)?;
            Ok((more, Some(rest)))
        }
        [b'-', behind @ ..] => {
            let (more, rest) = signed_term_at(alloc, space, names, !turned, terms, behind)?;
            Ok((more, Some(rest)))
        }
        _ => Ok((terms, None)),
    }
}

// The terms and the further ones of a sum, and what is behind.
fn terms_at<'a>(
    alloc: Global,
    space: Space,
    names: &[u8],
    turned: bool,
    terms: Terms,
    text: &'a [u8],
) -> Result<(Terms, &'a [u8]), LineFail>
    requires { length names.now ≡ space.p + space.q }
    ensures { Reads (λ x. (x.0.list.items, x.1.now)) result (all_turns (term_by space names.now turned) terms.list.items text.now) }
{
    let mut found = terms;
    let mut rest = text;
    'terms: loop {
        let (more, behind) = next_term(alloc, space, names, turned, found, rest)?;
        found = more;
        match behind {
            Some(after) => rest = after,
            None => return Ok((found, rest)),
        }
    }
}

// The terms and those of the sum in front, and what is behind it and blanks.
#[tactic(auto, unfolding(crate::specs::Terms::sum_at))]
fn sum_at<'a>(
    alloc: Global,
    space: Space,
    names: &[u8],
    turned: bool,
    terms: Terms,
    text: &'a [u8],
) -> Result<(Terms, &'a [u8]), LineFail>
    requires { length names.now ≡ space.p + space.q }
    ensures { Reads (λ x. (x.0.list.items, x.1.now)) result (sum_at space names.now turned terms.list.items text.now) }
{
    let (negative, first) = first_sign_of(after_blanks(text));
    let (found, rest) = signed_term_at(alloc, space, names, negative != turned, terms, first)?;
    terms_at(alloc, space, names, turned, found, rest)
}

// The terms, where nothing is behind them.
fn ended(terms: Terms, rest: &[u8]) -> Result<Terms, LineFail>
    ensures { Reads (λ t. t.list.items) result (equation_end (terms.list.items, rest.now)) }
{
    if rest.is_empty() {
        Ok(terms)
    } else {
        Err(LineFail::Fault(stop_at(BadKind::Syntax, rest)))
    }
}

/// The terms of an equation: those of its left side, and those of its right side with the other sign.
#[tactic(auto, unfolding(crate::specs::Terms::equation_of))]
pub fn equation_of(
    alloc: Global,
    space: Space,
    names: &[u8],
    text: &[u8],
) -> Result<Terms, LineFail>
    requires { length names.now ≡ space.p + space.q }
    ensures { Reads (λ t. t.list.items) result (equation_of space names.now text.now) }
{
    let (left, rest) = sum_at(alloc, space, names, false, Terms::new(alloc), text)?;
    match rest {
        [b'=', behind @ ..] => {
            let (both, rest) = sum_at(alloc, space, names, true, left, behind)?;
            ended(both, rest)
        }
        _ => Err(LineFail::Fault(stop_at(BadKind::Syntax, rest))),
    }
}
