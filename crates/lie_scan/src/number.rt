// Numbers.
ghost use Rattle.std.specs.Prelude.{◌≡◌, ◌<◌, ◌^◌, IfSome, IfOk};
ghost use Rattle.lie_scan.specs.Stops.{Gives};
ghost use Rattle.lie_scan.specs.Tokens.{appended, value_of, digits_at, literal_at};

use crate::fault::BadKind;
use crate::runs::{Class, after_blanks, is_in, split_run};
use crate::stop::{Stop, stop_at};

// A number with one more digit, up to 2^127 - 1.
fn appended(number: u128, digit: u8) -> Option<u128>
    requires { number < 2 ^ 127 }
    ensures value { result ≡ appended number digit }
    ensures small { IfSome result (λ n. n < 2 ^ 127) }
{
    if !is_in(Class::Digit, digit) {
        return None;
    }
    let shifted = number.checked_mul(10)?;
    let longer = shifted.checked_add(u128::from(digit - b'0'))?;
    if longer <= i128::MAX as u128 {
        Some(longer)
    } else {
        None
    }
}

/// The number that the digits spell, up to 2^127 - 1.
pub fn value_of(digits: &[u8]) -> Option<u128>
    ensures value { result ≡ value_of digits.now }
    ensures small { IfSome result (λ n. n < 2 ^ 127) }
{
    let mut number = 0;
    for digit in digits {
        number = appended(number, *digit)?;
    }
    Some(number)
}

/// The digits in front, blanks before them, and what is behind.
#[tactic(auto, unfolding(crate::specs::Tokens::digits_at))]
pub fn digits_at(text: &[u8]) -> Result<(&[u8], &[u8]), Stop>
    ensures { Gives (λ d. (d.0.now, d.1.now)) result (digits_at text.now) }
{
    let text = after_blanks(text);
    let (digits, rest) = split_run(Class::Digit, text);
    if digits.is_empty() {
        return Err(stop_at(BadKind::Syntax, text));
    }
    Ok((digits, rest))
}

/// The number in front, blanks before it, and what is behind.
#[tactic(auto, unfolding(crate::specs::Tokens::literal_at))]
pub fn literal_at(text: &[u8]) -> Result<(u128, &[u8]), Stop>
    ensures value { Gives (λ n. (n.0, n.1.now)) result (literal_at text.now) }
    ensures small { IfOk result (λ n. n.0 < 2 ^ 127) }
{
    let (digits, rest) = digits_at(text)?;
    match value_of(digits) {
        Some(number) => Ok((number, rest)),
        None => Err(stop_at(BadKind::Number, after_blanks(text))),
    }
}
