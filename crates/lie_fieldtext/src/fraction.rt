// Coefficients of field texts: fractions before `*`.
ghost use Rattle.std.specs.Prelude.{◌≡◌, ◌≤◌, ◌<◌, ◌^◌, IfOk};
ghost use Rattle.lie_math.specs.CommonDivisors.{common_divisor};
ghost use Rattle.lie_scan.specs.Stops.{Gives};
ghost use Rattle.lie_fieldtext.specs.FieldReading.{star_at, denominator_at, under_at, fraction_at, coefficient_at};

use lie_ring::gcd;
use lie_scan::fault::BadKind;
use lie_scan::number::literal_at;
use lie_scan::runs::{Class, after_blanks, is_in};
use lie_scan::stop::{Stop, stop_at};

/// A coefficient as it is written.
#[derive(Clone, Copy, Debug, PartialEq, Eq)]
pub struct Fraction {
    pub numerator: u128,
    pub denominator: u128,
}

/// The greatest common divisor of a number and one that is not 0.
pub fn common_divisor(number: u128, other: u128) -> u128
    requires { 1 ≤ other }
    ensures value { result ≡ common_divisor number other }
    ensures some { 1 ≤ result }
{
    gcd(number, other)
}

/// What is behind the sign `*`.
#[tactic(auto, unfolding(crate::specs::FieldReading::star_at))]
pub fn star_at(text: &[u8]) -> Result<&[u8], Stop>
    ensures { Gives (λ rest. rest.now) result (star_at text.now) }
{
    match after_blanks(text) {
        [b'*', rest @ ..] => Ok(rest),
        rest => Err(stop_at(BadKind::Syntax, rest)),
    }
}

// The denominator in front, and what is behind.
#[tactic(auto, unfolding(crate::specs::FieldReading::denominator_at))]
fn denominator_at(text: &[u8]) -> Result<(u128, &[u8]), Stop>
    ensures value { Gives (λ d. (d.0, d.1.now)) result (denominator_at text.now) }
    ensures some { IfOk result (λ d. 1 ≤ d.0) }
    ensures small { IfOk result (λ d. d.0 < 2 ^ 127) }
{
    let (number, rest) = literal_at(text)?;
    if number == 0 {
        Err(stop_at(BadKind::Number, after_blanks(text)))
    } else {
        Ok((number, rest))
    }
}

// The denominator behind a numerator, 1 where there is none, and what is behind.
#[tactic(auto, unfolding(crate::specs::FieldReading::under_at))]
fn under_at(text: &[u8]) -> Result<(u128, &[u8]), Stop>
    ensures value { Gives (λ d. (d.0, d.1.now)) result (under_at text.now) }
    ensures some { IfOk result (λ d. 1 ≤ d.0) }
    ensures small { IfOk result (λ d. d.0 < 2 ^ 127) }
{
    match after_blanks(text) {
        [b'/', digits @ ..] => denominator_at(digits),
        _ => Ok((1, text)),
    }
}

// The fraction in front, and what is behind it and the sign `*`.
#[tactic(auto, unfolding(crate::specs::FieldReading::fraction_at))]
fn fraction_at(text: &[u8]) -> Result<(Fraction, &[u8]), Stop>
    ensures value { Gives (λ c. ((c.0.numerator, c.0.denominator), c.1.now)) result (fraction_at text.now) }
    ensures some { IfOk result (λ c. 1 ≤ c.0.denominator) }
    ensures small { IfOk result (λ c. c.0.numerator < 2 ^ 127) }
{
    let (numerator, behind) = literal_at(text)?;
    let (denominator, behind) = under_at(behind)?;
    let rest = star_at(behind)?;
    Ok((
        Fraction {
            numerator,
            denominator,
        },
        rest,
    ))
}

/// The coefficient in front, 1 where there is none, and what is behind.
#[tactic(auto, unfolding(crate::specs::FieldReading::coefficient_at))]
pub fn coefficient_at(text: &[u8]) -> Result<(Fraction, &[u8]), Stop>
    ensures value { Gives (λ c. ((c.0.numerator, c.0.denominator), c.1.now)) result (coefficient_at text.now) }
    ensures some { IfOk result (λ c. 1 ≤ c.0.denominator) }
    ensures small { IfOk result (λ c. c.0.numerator < 2 ^ 127) }
{
    match after_blanks(text) {
        [byte, ..] if is_in(Class::Digit, *byte) => fraction_at(text),
        _ => Ok((
            Fraction {
                numerator: 1,
                denominator: 1,
            },
            text,
        )),
    }
}
