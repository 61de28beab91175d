// Fractions in lowest terms, and common multiples of their divisors.
ghost use Rattle.std.specs.Prelude.{◌≡◌, ℕ, ◌*◌, ◌<◌, ◌≤◌, ◌↔◌, ℤ, pos, unsigned_abs, MatchOption};
ghost use Rattle.std.specs.Int.{◌∣◌, IsGcd};
ghost use Rattle.lie_math.specs.Limits.{number_limit};
ghost use Rattle.lie_integral.specs.Fractions.{IsPositive, IsFraction, NoneClears};

use lie_ring::{Ring, Whole, gcd};

/// A number over a divisor of at least 1.
#[derive(Clone, Copy, PartialEq, Eq, Debug)]
pub struct Fraction {
    /// The number, with the sign of the fraction.
    pub number: Whole,
    /// The divisor.
    pub divisor: Whole,
}

/// A number over 1.
pub fn whole_fraction(number: Whole) -> Fraction
    ensures { IsFraction number 1 result }
{
    Fraction {
        number,
        divisor: Whole::one(),
    }
}

/// A fraction in lowest terms over one more factor, in lowest terms; None exactly where its divisor is past 2^127 - 1.
pub fn over(fraction: Fraction, factor: Whole) -> Option<Fraction>
    requires { IsPositive factor }
    ensures { (n : ℤ) (D : ℕ) → IsFraction n D fraction → MatchOption result
        (NoneClears (D * unsigned_abs factor) (unsigned_abs n)) (IsFraction n (D * unsigned_abs factor)) }
{
    let common = common_divisor(fraction.number, factor);
    let divisor = fraction.divisor.mul(&factor.exact_quotient(common))?;
    Some(Fraction {
        number: fraction.number.exact_quotient(common),
        divisor,
    })
}

/// The least common multiple; None exactly where it is past 2^127 - 1.
pub fn common_multiple(number: Whole, other: Whole) -> Option<Whole>
    requires number { IsPositive number }
    requires other { IsPositive other }
    ensures { MatchOption result
        ((M : ℕ) → 0 < M → unsigned_abs number ∣ M → unsigned_abs other ∣ M → number_limit ≤ M)
        (λ L. IsPositive L × ((M : ℕ) → ((unsigned_abs number ∣ M) × (unsigned_abs other ∣ M)) ↔ (unsigned_abs L ∣ M))) }
{
    let common = common_divisor(number, other);
    number.exact_quotient(common).mul(&other)
}

/// The greatest common divisor of two numbers, of which the second is at least 1.
fn common_divisor(number: Whole, other: Whole) -> Whole
    requires { IsPositive other }
    ensures positive { IsPositive result }
    ensures divisor { IsGcd (unsigned_abs number) (unsigned_abs other) (unsigned_abs result) }
{
    match Whole::new(gcd(number.size(), other.size()) as i128) {
        Some(divisor) => divisor,
        None => unreachable!(),
    }
}
