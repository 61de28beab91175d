//! Worked values of the rules, each a law.

ghost use Rattle.lie_steps.specs.WorkedRules.{ZeroValue, NoZeroOfDerivative, LowestValue, NoLowestOfTwoUnknowns, NoLowestOfCoefficient};
ghost use Rattle.lie_steps.specs.WorkedRules.{AbsentValue, NoAbsentOfUnknown};
ghost use Rattle.lie_steps.specs.WorkedRules.{SplitValue, NoSplitByOwnVariable, SubstituteValue, NoSubstituteOfOthersVariable};
ghost use Rattle.lie_steps.specs.WorkedRules.{IntegrateValue, NoIntegralOfOwnVariable, NoCrossOfTwoUnknowns};
ghost use Rattle.lie_steps.specs.WorkedRules.{FreedValue, NoIsolationOfHighPower, ReduceValue, NoReductionByOtherVariable, ForeignValue};
ghost use Rattle.lie_steps.specs.WorkedRules.{NoForeignByOwnVariable, IsolationOfHighestPower, CrossValue};

/// With `f1 = 0`, of `2*f2 + f1` in the general form `2*f2` is left, and is not divided.
pub fn zero_value()
    ensures { ZeroValue }
{}

/// `f1_x = 0` is not `f1 = 0`.
pub fn no_zero_of_derivative()
    ensures { NoZeroOfDerivative }
{}

/// `f1_xx + f1_x = 0` becomes `f1_x = 0`.
pub fn lowest_value()
    ensures { LowestValue }
{}

/// `f1_x + f2 = 0` has two unknowns.
pub fn no_lowest_of_two_unknowns()
    ensures { NoLowestOfTwoUnknowns }
{}

/// `x*f1_x + f1 = 0` has a coefficient with a variable.
pub fn no_lowest_of_coefficient()
    ensures { NoLowestOfCoefficient }
{}

/// With `f1_xy = 0` the general form `2*f1` is `2*f3 + 2*f2`, where `f2` is a function of y and `f3` of x.
pub fn absent_value()
    ensures { AbsentValue }
{}

/// `f1 = 0` says of no derivative that it is 0.
pub fn no_absent_of_unknown()
    ensures { NoAbsentOfUnknown }
{}

/// `y*z*f1 + f1_x = 0`, with `f1` of x, is split by y, and not by z before.
pub fn split_value()
    ensures { SplitValue }
{}

/// `x*f1_x + f1 = 0` is not split by x, on which `f1` depends.
pub fn no_split_by_own_variable()
    ensures { NoSplitByOwnVariable }
{}

/// With `2*f2 - f1 = 0` the general form `4*f2` is `f1`.
pub fn substitute_value()
    ensures { SubstituteValue }
{}

/// `f2 + f1 = 0` with `f2` of x and `f1` of y is solved for neither.
pub fn no_substitute_of_others_variable()
    ensures { NoSubstituteOfOthersVariable }
{}

/// With `f1_x - f2 = 0`, `f2` of y, the general form `f1` is `f3 + x*f2` with `f3` of y.
pub fn integrate_value()
    ensures { IntegrateValue }
{}

/// `f1_x + f2 = 0` with `f2` of x is not integrated.
pub fn no_integral_of_own_variable()
    ensures { NoIntegralOfOwnVariable }
{}

/// `f1_x = 0` and `f2_y = 0` are not combined.
pub fn no_cross_of_two_unknowns()
    ensures { NoCrossOfTwoUnknowns }
{}

/// In `f1_x + x*f2`, `f1` of x and `f2` a constant, x is derived by twice, and `f1_xxx` is left.
pub fn freed_value()
    ensures { FreedValue }
{}

/// In `f1_x + x^32*f2 = 0` the exponent is too high.
pub fn no_isolation_of_high_power()
    ensures { NoIsolationOfHighPower }
{}

/// `f1_xx + f2 = 0` is reduced by `f1_x = 0`.
pub fn reduce_value()
    ensures { ReduceValue }
{}

/// `f1_xx + f2 = 0` is not reduced by `f1_y = 0`.
pub fn no_reduction_by_other_variable()
    ensures { NoReductionByOtherVariable }
{}

/// Of `f1_x + f2 = 0`, `f1` of x and `f2` of y, comes `f2_y = 0`.
pub fn foreign_value()
    ensures { ForeignValue }
{}

/// Nothing comes of the derivative by x, on which `f1` depends.
pub fn no_foreign_by_own_variable()
    ensures { NoForeignByOwnVariable }
{}

/// `f1_x + x^31*f2 = 0` may be derived by x.
pub fn isolation_of_highest_power()
    ensures { IsolationOfHighestPower }
{}

/// Of `f1_x + f2 = 0` and `f1_y = 0` comes `f2_y = 0`.
pub fn cross_value()
    ensures { CrossValue }
{}
