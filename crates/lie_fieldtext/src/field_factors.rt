// Powers of variables and base vectors.
ghost use Rattle.std.specs.Prelude.{◌≡◌, ◌≤◌, ◌<◌, length, IfOk};
ghost use Rattle.lie_scan.specs.Stops.{Gives, Reads};
ghost use Rattle.lie_system.specs.Exponents.{HasSmallExponents};
ghost use Rattle.lie_fieldtext.specs.FieldReading.{name_at, variable_power_at, factor_turn, factors_at};
ghost use Rattle.lie_fieldtext.specs.FieldAnswers.{factor_turn_of, HasSmallFactor};

use crate::fraction::star_at;
use lie_ring::Mono;
use lie_scan::coordinate::place_of_word;
use lie_scan::fault::BadKind;
use lie_scan::power::{Power, exponent_at};
use lie_scan::runs::{Class, after_blanks, split_run};
use lie_scan::stop::{LineFail, Stop, stop_at};
use lie_scan::term::raised;
use std::alloc::Global;

/// A factor of a term: a base vector by the place of its variable, or the product with a power.
pub enum Factor {
    Base(u8),
    Product(Mono),
}

// The place of the name in front, and what is behind; a word that is no name is a fault at `whole`.
#[tactic(auto, unfolding(crate::specs::FieldReading::name_at))]
fn name_at<'a>(names: &[u8], whole: &[u8], text: &'a [u8]) -> Result<(u8, &'a [u8]), Stop>
    requires { length names.now ≤ 8 }
    ensures value { Gives (λ n. (n.0, n.1.now)) result (name_at names.now whole.now text.now) }
    ensures within { IfOk result (λ n. n.0 < length names.now) }
{
    let (word, rest) = split_run(Class::Letter, text);
    if word.is_empty() {
        return Err(stop_at(BadKind::Syntax, text));
    }
    match place_of_word(names, word) {
        Some(place) => Ok((place, rest)),
        None => Err(stop_at(BadKind::UnknownName, whole)),
    }
}

// The product of a monomial and of the power in front, and what is behind it and the sign `*`.
#[tactic(auto, unfolding(crate::specs::FieldReading::variable_power_at))]
fn variable_power_at<'a>(
    alloc: Global,
    names: &[u8],
    mono: &Mono,
    text: &'a [u8],
) -> Result<(Mono, &'a [u8]), LineFail>
    requires names { length names.now ≤ 8 }
    requires small { HasSmallExponents mono.now }
    ensures value { Reads (λ x. (x.0, x.1.now)) result (variable_power_at names.now mono.now text.now) }
    ensures small { IfOk result (λ x. HasSmallExponents x.0) }
{
    let (place, behind) = name_at(names, text, text)?;
    let (exponent, behind) = exponent_at(text, behind)?;
    let power = Power {
        number: u32::from(place),
        exponent,
    };
    let product = raised(alloc, mono, power, text)?;
    let rest = star_at(behind)?;
    Ok((product, rest))
}

// The factor in front, and what is behind.
fn next_factor<'a>(
    alloc: Global,
    names: &[u8],
    mono: &Mono,
    text: &'a [u8],
) -> Result<(Factor, &'a [u8]), LineFail>
    requires names { length names.now ≤ 8 }
    requires small { HasSmallExponents mono.now }
    ensures value { Reads (λ x. factor_turn_of mono.now x.0 x.1.now) result (factor_turn names.now mono.now text.now) }
    ensures small { IfOk result (λ x. HasSmallFactor x.0) }
{
    let text = after_blanks(text);
    match text {
        [b'd', b'_', name @ ..] => {
            let (place, rest) = name_at(names, text, name)?;
            Ok((Factor::Base(place), rest))
        }
        _ => {
            let (product, rest) = variable_power_at(alloc, names, mono, text)?;
            Ok((Factor::Product(product), rest))
        }
    }
}

/// The place of the base vector, the product of a monomial and of the powers before it, and what is behind.
pub fn factors_at<'a>(
    alloc: Global,
    names: &[u8],
    mono: Mono,
    text: &'a [u8],
) -> Result<(u8, Mono, &'a [u8]), LineFail>
    requires names { length names.now ≤ 8 }
    requires small { HasSmallExponents mono }
    ensures { Reads (λ x. ((x.0, x.1), x.2.now)) result (factors_at names.now mono text.now) }
{
    let mut product = mono;
    let mut rest = text;
    'factors: loop {
        let (factor, behind) = next_factor(alloc, names, &product, rest)?;
        rest = behind;
        match factor {
            Factor::Product(more) => product = more,
            Factor::Base(place) => return Ok((place, product, rest)),
        }
    }
}
