// Powers of coordinates.
ghost use Rattle.std.specs.Prelude.{◌≡◌, ◌+◌, ◌≤◌, length, IfOk};
ghost use Rattle.lie_scan.specs.Stops.{Gives};
ghost use Rattle.lie_scan.specs.Tokens.{exponent_at, power_at};
ghost use Rattle.lie_system.specs.Limits.{greatest_written_exponent};

use crate::coordinate::{coordinate_at, number_of};
use crate::fault::BadKind;
use crate::number::{digits_at, value_of};
use crate::runs::after_blanks;
use crate::stop::{Stop, stop_at};
use lie_jet::Space;

/// The greatest exponent of a variable in a term.
pub const MAX_EXPONENT: u32 = 32;

/// The exponent behind a coordinate, and what is behind; `text` begins with the coordinate.
#[tactic(auto, unfolding(crate::specs::Tokens::exponent_at))]
pub fn exponent_at<'a>(text: &[u8], behind: &'a [u8]) -> Result<(u32, &'a [u8]), Stop>
    ensures value { Gives (λ e. (e.0, e.1.now)) result (exponent_at text.now behind.now) }
    ensures low { IfOk result (λ e. 1 ≤ e.0) }
    ensures high { IfOk result (λ e. e.0 ≤ greatest_written_exponent) }
{
    match after_blanks(behind) {
        [b'^', digits @ ..] => {
            let (digits, rest) = digits_at(digits)?;
            match value_of(digits) {
                Some(number) if 1 <= number && number <= u128::from(MAX_EXPONENT) => Ok((
                    number as u32,
                    rest,
                )),
                _ => Err(stop_at(BadKind::Exponent, text)),
            }
        }
        _ => Ok((1, behind)),
    }
}

/// A power of a coordinate, by the number of the coordinate.
#[derive(Clone, Copy, Debug, PartialEq, Eq)]
pub struct Power {
    pub number: u32,
    pub exponent: u32,
}

/// The power in front, and what is behind.
#[tactic(auto, unfolding(crate::specs::Tokens::power_at))]
pub fn power_at<'a>(space: Space, names: &[u8], text: &'a [u8]) -> Result<(Power, &'a [u8]), Stop>
    requires { length names.now ≡ space.p + space.q }
    ensures value { Gives (λ x. ((x.0.number, x.0.exponent), x.1.now)) result (power_at space names.now text.now) }
    ensures low { IfOk result (λ x. 1 ≤ x.0.exponent) }
    ensures high { IfOk result (λ x. x.0.exponent ≤ greatest_written_exponent) }
{
    let (variable, behind) = coordinate_at(space, names, text)?;
    let (exponent, rest) = exponent_at(text, behind)?;
    Ok((
        Power {
            number: number_of(space, variable),
            exponent,
        },
        rest,
    ))
}
