//! Worked values, each a law.

ghost use Rattle.lie_systems.specs.WorkedValues.{TriplesOfSum, DividedEquation, DerivativeAlone, LineSystemIsValid, NextNumberIsFree};
ghost use Rattle.lie_systems.specs.WorkedValues.{VariablesAreOfTheSpace, OrdersUpTo64AreWithin, TriplesOfLineSystem, LimitsAreThese};

/// `2*f1 + x*f2_x - f1` has the triples `x*f2_x` and `f1`, in this order.
pub fn triples_of_sum()
    ensures { TriplesOfSum }
{}

/// `-4*x^2*f1_x + 6*x*f2` is normalised to `2*x*f1_x - 3*f2`.
pub fn divided_equation()
    ensures { DividedEquation }
{}

/// `(x - 2)*f1_y` is normalised to `f1_y`.
pub fn derivative_alone()
    ensures { DerivativeAlone }
{}

/// The determining equations of `y_xx = 0` are a valid system in this order: `f1_yy`, `f2_xx`, `f2_yy - 2*f1_xy`, `2*f2_xy - f1_xx`.
pub fn line_system_is_valid()
    ensures { LineSystemIsValid }
{}

/// A system whose next number is that of an unknown is not valid.
pub fn next_number_is_free()
    ensures { NextNumberIsFree }
{}

/// A system over two variables with an unknown of a third is not valid.
pub fn variables_are_of_the_space()
    ensures { VariablesAreOfTheSpace }
{}

/// A derivative of order 64 is within the limits, and one of order 65 is past them.
pub fn orders_up_to_64_are_within()
    ensures { OrdersUpTo64AreWithin }
{}

/// The system of `y_xx = 0` has eight triples, those of its general forms included.
pub fn triples_of_line_system()
    ensures { TriplesOfLineSystem }
{}

/// The number `2^127 - 1`, 1,000,000 triples, the unknown 65,535, and a basis of 256 unknowns and 1,000 columns are within the limits,
/// and the next ones are past them.
pub fn limits_are_these()
    ensures { LimitsAreThese }
{}
