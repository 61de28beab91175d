// Terms and sums.
ghost use Rattle.std.specs.Prelude.{◌≡◌, ◌≤◌, ◌<◌, ◌^◌, map, length, IfOk};
ghost use Rattle.std.specs.List.{slice_split};
ghost use Rattle.lie_print.specs.PrintedTerms.{printed};
ghost use Rattle.lie_readback.specs.Readings.{Reads};
ghost use Rattle.lie_readback.specs.Sums.{begins_with_digit, read_size, parted, read_factors, read_term, with_term, read_word};
ghost use Rattle.lie_readback.specs.Sums.{read_words, sum_of_words, read_sum, sum_seen};

use crate::factors::{read_last, read_product};
use crate::parts::{factors_of, words_of};
use crate::unread::Unread;
use lie_print::printed_term::Term;
use lie_scan::number::value_of;
use lie_scan::runs::{Class, is_in};
use lie_scan::terms::signed;
use std::alloc::Global;

// Whether a factor begins with a digit.
fn begins_with_digit(factor: &[u8]) -> bool
    ensures { result ≡ begins_with_digit factor.now }
{
    match factor {
        [byte, ..] => is_in(Class::Digit, *byte),
        [] => false,
    }
}

// The number before factors, 1 where none stands there, and the factors behind it.
fn read_size<'a>(factors: &'a [&'a [u8]]) -> Result<(u128, &'a [&'a [u8]]), Unread>
    ensures value { Reads (λ s. (s.0, map (λ f. f.now) s.1.now)) result (read_size (map (λ f. f.now) factors.now)) }
    ensures small { IfOk result (λ s. s.0 < 2 ^ 127) }
{
    match factors {
        [first, rest @ ..] => {
            if !begins_with_digit(first) {
                return Ok((1, factors));
            }
            match value_of(first) {
                Some(number) => Ok((number, rest)),
                None => Err(Unread::Other),
            }
        }
        [] => Ok((1, factors)),
    }
}

// The factors before the last one, and the last one.
fn parted<'a>(factors: &'a [&'a [u8]]) -> Result<(&'a [&'a [u8]], &'a [u8]), Unread>
    ensures { Reads (λ p. (map (λ f. f.now) p.0.now, p.1.now)) result (parted (map (λ f. f.now) factors.now)) }
{
    match factors.split_last() {
        Some((last, front)) => Ok((front, *last)),
        None => Err(Unread::Other),
    }
}

// The term of a number, powers and a last factor, with a sign.
#[tactic(auto, unfolding(crate::specs::Sums::read_factors))]
fn read_factors(
    alloc: Global,
    names: &[u8],
    negative: bool,
    factors: &[&[u8]],
) -> Result<Term, Unread>
    requires { length names.now ≤ 8 }
    ensures { Reads printed result (read_factors names.now negative (map (λ f. f.now) factors.now)) }
{
    let (size, rest) = read_size(factors)?;
    let (powers, last) = parted(rest)?;
    let monomial = read_product(alloc, names, powers)?;
    let last = read_last(names, last)?;
    Ok(Term {
        number: signed(negative, size),
        monomial,
        last: Some(last),
    })
}

// The term that a text is.
fn read_term(alloc: Global, names: &[u8], negative: bool, text: &[u8]) -> Result<Term, Unread>
    requires { length names.now ≤ 8 }
    ensures { Reads printed result (read_term names.now negative text.now) }
{
    let factors = factors_of(alloc, text)?;
    read_factors(alloc, names, negative, factors.as_slice())
}

/// The terms of a sum that are read, and the sign of the one that comes next.
#[derive(Drop)]
pub struct Sum {
    pub negative: bool,
    pub terms: Vec<Term>,
}

// The sum with one more term.
fn with_term(
    alloc: Global,
    names: &[u8],
    terms: Vec<Term>,
    negative: bool,
    text: &[u8],
) -> Result<Sum, Unread>
    requires { length names.now ≤ 8 }
    ensures { Reads sum_seen result (with_term names.now (map printed terms.items) negative text.now) }
{
    let term = read_term(alloc, names, negative, text)?;
    let mut terms = terms;
    terms.push(term)?;
    Ok(Sum { negative, terms })
}

// The sum with a further word: a sign, a term, or what stands for nothing.
fn read_word(alloc: Global, names: &[u8], sum: Sum, word: &[u8]) -> Result<Sum, Unread>
    requires { length names.now ≤ 8 }
    ensures { Reads sum_seen result (read_word names.now (sum_seen sum) word.now) }
{
    match word {
        [] => Err(Unread::Other),
        [b'+'] => Ok(Sum {
            negative: false,
            terms: sum.terms,
        }),
        [b'-'] => Ok(Sum {
            negative: true,
            terms: sum.terms,
        }),
        [b'0'] => Ok(sum),
        [b'='] => Ok(sum),
        [_] => Err(Unread::Other),
        [b'-', term @ ..] => with_term(alloc, names, sum.terms, true, term),
        _ => with_term(alloc, names, sum.terms, sum.negative, word),
    }
}

// The sum with further words.
fn read_words(alloc: Global, names: &[u8], sum: Sum, words: &[&[u8]]) -> Result<Sum, Unread>
    requires { length names.now ≤ 8 }
    ensures { Reads sum_seen result (read_words names.now (sum_seen sum) (map (λ w. w.now) words.now)) }
{
    let mut sum = sum;
    let mut i = 0;
    while i < words.len() {
        let more = read_word(alloc, names, sum, words[i])?;
        sum = more;
        i += 1;
    }
    Ok(sum)
}

/// The terms of the sum with these words.
pub fn sum_of_words(alloc: Global, names: &[u8], words: &[&[u8]]) -> Result<Vec<Term>, Unread>
    requires { length names.now ≤ 8 }
    ensures { Reads (λ ts. map printed ts.items) result (sum_of_words names.now (map (λ w. w.now) words.now)) }
{
    let none = Sum {
        negative: false,
        terms: Vec::new(alloc),
    };
    let sum = read_words(alloc, names, none, words)?;
    Ok(sum.terms)
}

/// The terms of a sum; what ends an equation stands for nothing.
#[tactic(auto, unfolding(crate::specs::Sums::read_sum))]
pub fn read_sum(alloc: Global, names: &[u8], text: &[u8]) -> Result<Vec<Term>, Unread>
    requires { length names.now ≤ 8 }
    ensures { Reads (λ ts. map printed ts.items) result (read_sum names.now text.now) }
{
    let words = words_of(alloc, text)?;
    sum_of_words(alloc, names, words.as_slice())
}
