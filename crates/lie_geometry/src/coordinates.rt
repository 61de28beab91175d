//! Jet coordinates and their numbers (Olver, section 2.3).

ghost use Rattle.lie_geometry.specs.CoordinateLaws.{NumbersAreInverse, NumbersAreSmall, NumbersRise, OrdersAreBelow};

/// Each number is that of exactly one coordinate: the number of a coordinate and the coordinate of a number are each other's inverse.
pub fn numbers_are_inverse()
    ensures { NumbersAreInverse }
{}

/// Numbers go by the printed order: the independent variables, then by order, by dependent variable, and the lexicographically greater
/// counts first.
pub fn numbers_rise()
    ensures { NumbersRise }
{}

/// The coordinates of the orders 0 to n are those whose numbers lie below one bound.
pub fn orders_are_below()
    ensures { OrdersAreBelow }
{}

/// With up to 4 variables of each kind, the coordinates up to order 12 have numbers below 7,284.
pub fn numbers_are_small()
    ensures { NumbersAreSmall }
{}
