//! Worked values, each a law.

ghost use Rattle.lie_math.specs.WorkedValues.{SquareOfSum, OrderOfTerms, DerivativeOfSum, CoefficientOfX, HalfOfX, ConstantFieldsGiven};
ghost use Rattle.lie_math.specs.WorkedValues.{DegreeInEach, ExponentsUpTo65535AreLow};

/// `(x + u)^2` is `x^2 + 2*x*u + u^2`.
pub fn square_of_sum()
    ensures { SquareOfSum }
{}

/// The terms of a polynomial stand in the order in which they are printed: `x^2`, `x*u`, `u^2`, `x`, `1`.
pub fn order_of_terms()
    ensures { OrderOfTerms }
{}

/// The derivative of `x*u + 3*x^2` by x is `u + 6*x`.
pub fn derivative_of_sum()
    ensures { DerivativeOfSum }
{}

/// The coefficient of x in `3*x^2 + x*u + 2*x + 5` is `u + 2`.
pub fn coefficient_of_x()
    ensures { CoefficientOfX }
{}

/// `x/2` is `2*x/4`.
pub fn half_of_x()
    ensures { HalfOfX }
{}

/// The equation `f_x = 0` for the fields `f*d_x` gives `3/2*d_x` and does not give `x*d_x`.
pub fn constant_fields_given()
    ensures { ConstantFieldsGiven }
{}

/// The degree of `x*u^2 + 3*x` is 1 in x and 2 in u.
pub fn degree_in_each()
    ensures { DegreeInEach }
{}

/// The exponent 65,535 is within the limits, and 65,536 is past them.
pub fn exponents_up_to_65535_are_low()
    ensures { ExponentsUpTo65535AreLow }
{}
