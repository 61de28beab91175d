// Terms: a number and powers.
ghost use Rattle.std.specs.Prelude.{◌≡◌, ◌+◌, ◌≤◌, ◌<◌, ◌^◌, ℕ, length, IfOk, IfSome};
ghost use Rattle.lie_scan.specs.Stops.{Reads};
ghost use Rattle.lie_scan.specs.Terms.{raised, factor_at, factor_turn, factors_at, first_at, term_at};
ghost use Rattle.lie_scan.specs.Answers.{turn_of};
ghost use Rattle.lie_system.specs.Exponents.{HasSmallExponents};
ghost use Rattle.lie_system.specs.Limits.{greatest_written_exponent};

use crate::fault::BadKind;
use crate::number::literal_at;
use crate::power::{MAX_EXPONENT, Power, power_at};
use crate::runs::{Class, after_blanks, is_in};
use crate::stop::{LineFail, stop_at};
use lie_jet::Space;
use lie_ring::{Mono, PolyFail};
use std::alloc::Global;

/// The product of a monomial and a power; Exponent at the power where it has too high an exponent.
pub fn raised(alloc: Global, mono: &Mono, power: Power, text: &[u8]) -> Result<Mono, LineFail>
    requires small { HasSmallExponents mono.now }
    requires low { 1 ≤ power.exponent }
    requires high { power.exponent ≤ greatest_written_exponent }
    ensures value { Reads (λ m. m) result (raised mono.now (power.number, power.exponent) text.now) }
    ensures small { IfOk result HasSmallExponents }
{
    let factor = Mono::power(alloc, power.number, power.exponent);
    match mono.times(alloc, &factor) {
        Ok(product) => {
            if product.exponent(power.number) > MAX_EXPONENT {
                Err(LineFail::Fault(stop_at(BadKind::Exponent, text)))
            } else {
                Ok(product)
            }
        }
        Err(PolyFail::NoMemory) => Err(LineFail::NoMemory),
        Err(PolyFail::Past(_)) => Err(LineFail::Fault(stop_at(BadKind::Exponent, text))),
    }
}

// The product of a monomial and of the power in front, and what is behind.
#[tactic(auto, unfolding(crate::specs::Terms::factor_at))]
fn factor_at<'a>(
    alloc: Global,
    space: Space,
    names: &[u8],
    mono: &Mono,
    text: &'a [u8],
) -> Result<(Mono, &'a [u8]), LineFail>
    requires names { length names.now ≡ space.p + space.q }
    requires small { HasSmallExponents mono.now }
    ensures value { Reads (λ x. (x.0, x.1.now)) result (factor_at space names.now mono.now text.now) }
    ensures small { IfOk result (λ x. HasSmallExponents x.0) }
{
    let text = after_blanks(text);
    let (power, rest) = power_at(space, names, text)?;
    let product = raised(alloc, mono, power, text)?;
    Ok((product, rest))
}

// The product of a monomial and of a further factor, and what is behind; None at the end of the term.
fn next_factor<'a>(
    alloc: Global,
    space: Space,
    names: &[u8],
    mono: &Mono,
    text: &'a [u8],
) -> Result<Option<(Mono, &'a [u8])>, LineFail>
    requires names { length names.now ≡ space.p + space.q }
    requires small { HasSmallExponents mono.now }
    ensures value { Reads (λ o. turn_of mono.now text.now o) result (factor_turn space names.now mono.now text.now) }
    ensures small { IfOk result (λ o. IfSome o (λ x. HasSmallExponents x.0)) }
{
    match after_blanks(text) {
        [b'*', behind @ ..] => {
            let (product, rest) = factor_at(alloc, space, names, mono, behind)?;
            Ok(Some((product, rest)))
        }
        _ => Ok(None),
    }
}

// The product of a monomial and of the further factors, and what is behind them and blanks.
fn factors_at<'a>(
    alloc: Global,
    space: Space,
    names: &[u8],
    mono: Mono,
    text: &'a [u8],
) -> Result<(Mono, &'a [u8]), LineFail>
    requires names { length names.now ≡ space.p + space.q }
    requires small { HasSmallExponents mono }
    ensures value { Reads (λ x. (x.0, x.1.now)) result (factors_at space names.now mono text.now) }
    ensures small { IfOk result (λ x. HasSmallExponents x.0) }
{
    let mut product = mono;
    let mut rest = text;
    'factors: loop {
        match next_factor(alloc, space, names, &product, rest)? {
            Some((more, after)) => {
                product = more;
                rest = after;
            }
            None => return Ok((product, after_blanks(rest))),
        }
    }
}

// The number or the power in front of a term, and what is behind.
#[tactic(auto, unfolding(crate::specs::Terms::first_at))]
fn first_at<'a>(
    alloc: Global,
    space: Space,
    names: &[u8],
    text: &'a [u8],
) -> Result<(u128, Mono, &'a [u8]), LineFail>
    requires names { length names.now ≡ space.p + space.q }
    ensures value { Reads (λ t. (t.0, t.1, t.2.now)) result (first_at space names.now text.now) }
    ensures small { IfOk result (λ t. HasSmallExponents t.1) }
    ensures number { IfOk result (λ t. t.0 < 2 ^ 127) }
{
    match text {
        [byte, ..] if is_in(Class::Digit, *byte) => {
            let (number, rest) = literal_at(text)?;
            Ok((number, Mono::one(alloc), rest))
        }
        _ => {
            let (mono, rest) = factor_at(alloc, space, names, &Mono::one(alloc), text)?;
            Ok((1, mono, rest))
        }
    }
}

/// The number and the monomial of the term in front, and what is behind it and blanks.
#[tactic(auto, unfolding(crate::specs::Terms::term_at))]
pub fn term_at<'a>(
    alloc: Global,
    space: Space,
    names: &[u8],
    text: &'a [u8],
) -> Result<(u128, Mono, &'a [u8]), LineFail>
    requires names { length names.now ≡ space.p + space.q }
    ensures value { Reads (λ t. (t.0, t.1, t.2.now)) result (term_at space names.now text.now) }
    ensures small { IfOk result (λ t. HasSmallExponents t.1) }
    ensures number { IfOk result (λ t. t.0 < 2 ^ 127) }
{
    let (number, first, rest) = first_at(alloc, space, names, text)?;
    let (mono, rest) = factors_at(alloc, space, names, first, rest)?;
    Ok((number, mono, rest))
}
