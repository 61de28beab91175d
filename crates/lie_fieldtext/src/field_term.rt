// Terms of field texts.
ghost use Rattle.std.specs.Prelude.{◌≡◌, ◌≤◌, length, IfOk};
ghost use Rattle.lie_scan.specs.Stops.{Reads};
ghost use Rattle.lie_fieldtext.specs.FieldReading.{field_term_at};
ghost use Rattle.lie_fieldtext.specs.FieldAnswers.{HasDenominator};

use crate::field_factors::factors_at;
use crate::fraction::{coefficient_at, common_divisor};
use lie_ring::{Mono, Whole};
use lie_scan::stop::LineFail;
use lie_scan::terms::signed;
use std::alloc::Global;

/// A term of a field.
#[derive(Drop)]
pub struct FieldTerm {
    /// The place of the variable whose base vector it has.
    pub place: u8,
    /// The product of its powers.
    pub monomial: Mono,
    /// The numerator of its coefficient, with its sign.
    pub number: Whole,
    /// The denominator of its coefficient, at least 1.
    pub over: u128,
}

/// The term in front, its coefficient in lowest terms and negative behind a minus, and what is behind.
#[tactic(auto, unfolding(crate::specs::FieldReading::field_term_at))]
pub fn field_term_at<'a>(
    alloc: Global,
    names: &[u8],
    negative: bool,
    text: &'a [u8],
) -> Result<(FieldTerm, &'a [u8]), LineFail>
    requires { length names.now ≤ 8 }
    ensures value { Reads (λ x. (x.0, x.1.now)) result (field_term_at names.now negative text.now) }
    ensures some { IfOk result (λ x. HasDenominator x.0) }
{
    let (fraction, behind) = coefficient_at(text)?;
    let (place, monomial, rest) = factors_at(alloc, names, Mono::one(alloc), behind)?;
    let divisor = common_divisor(fraction.numerator, fraction.denominator);
    let term = FieldTerm {
        place,
        monomial,
        number: signed(negative, fraction.numerator / divisor),
        over: fraction.denominator / divisor,
    };
    Ok((term, rest))
}
