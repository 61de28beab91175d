//! The variables of a polynomial, and the coefficients of the powers of one of them.

ghost use Rattle.std.specs.Prelude.{◌≡◌, ℕ, ◌↔◌};
ghost use Rattle.lie_math.specs.Polynomial.{WholePolynomial, 0ᴾ};
ghost use Rattle.lie_math.specs.PartialDerivative.{partial};
ghost use Rattle.lie_math.specs.Variables.{FreeOf};
ghost use Rattle.lie_math.specs.Powers.{power_coefficient};
ghost use Rattle.lie_math.specs.Laws.{InIsKept, PowerCoefficientIsCoefficient};

/// A variable occurs in no term exactly if the derivative by it is 0.
pub fn free_is_partial_zero()
    ensures { (v : ℕ) (p : WholePolynomial) → FreeOf v p ↔ partial v p ≡ 0ᴾ }
{}

/// A polynomial has variables of a set alone exactly if putting 0 in for all others changes nothing.
pub fn in_is_kept()
    ensures { InIsKept }
{}

/// The coefficient of the i-th power of a variable has no term with that variable, and the coefficients of the polynomial at that power.
pub fn power_coefficient_is_coefficient()
    ensures { PowerCoefficientIsCoefficient }
{}

/// A polynomial is 0 exactly if the coefficient of each power of a variable is.
pub fn power_coefficients_tell()
    ensures { (v : ℕ) (p : WholePolynomial) → p ≡ 0ᴾ ↔ ((i : ℕ) → power_coefficient v i p ≡ 0ᴾ) }
{}
