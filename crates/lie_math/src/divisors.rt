//! Divisors of whole numbers.

ghost use Rattle.std.specs.Prelude.{ℕ};
ghost use Rattle.std.specs.Int.{IsGcd};
ghost use Rattle.lie_math.specs.CommonDivisors.{common_divisor};

/// The common divisor of two numbers divides both, and each number that divides both divides it.
pub fn common_divisor_is_greatest()
    ensures { (a b : ℕ) → IsGcd a b (common_divisor a b) }
{}
