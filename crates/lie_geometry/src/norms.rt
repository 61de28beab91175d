//! Norms of linear forms, and a bound of the prolongation of unknown functions (Olver, section 2.3).

ghost use Rattle.lie_geometry.specs.NormLaws.{AbsolutesHaveNorm, BoundIsSmall, BoundedIsWithinLimits, BoundedPolynomialIsWithinLimits};
ghost use Rattle.lie_geometry.specs.NormLaws.{CoefficientsAreBounded, FieldCoefficientsAreBounded, NormIsBound};

/// The norm, the sum of the absolute values of all numbers, bounds each number, each coefficient, and how many numbers there are.
pub fn norm_is_bound()
    ensures { NormIsBound }
{}

/// The form with the absolute values has the norm of the form.
pub fn absolutes_have_norm()
    ensures { AbsolutesHaveNorm }
{}

/// The symbolic coefficient at a jet of order k, and its bulk, have at most the norm that the numbers of variables and k tell,
/// derivatives of orders up to k, and monomials of degrees up to k + 1.
pub fn coefficients_are_bounded()
    ensures { CoefficientsAreBounded }
{}

/// The same of a field whose components have norms up to M and degrees up to D: the norm is at most N(k), where N(0) = M and
/// N(k + 1) = (D + 1)*N(k) + p*D*M, and the degrees are at most D + 1.
pub fn field_coefficients_are_bounded()
    ensures { FieldCoefficientsAreBounded }
{}

/// Where the norm of the symbolic coefficient is at most 1,000,000, each coefficient of the form is within the limits, and there are at
/// most 1,000,000 numbers.
pub fn bounded_is_within_limits()
    ensures { BoundedIsWithinLimits }
{}

/// A polynomial with a norm of at most 1,000,000 and degrees of at most 65,535 is within the limits.
pub fn bounded_polynomial_is_within_limits()
    ensures { BoundedPolynomialIsWithinLimits }
{}

/// With up to 4 variables of each kind the bound of symbolic coefficients is at most 1,000,000 up to order 6.
pub fn bound_is_small()
    ensures { BoundIsSmall }
{}
