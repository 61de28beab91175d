//! The determining equations (Olver, section 2.4).

ghost use Rattle.lie_geometry.specs.InvarianceLaws.{DeterminingIsFinite, DeterminingIsInvariant, InvariantIsGiven, PartsAreZero};

/// A polynomial is 0 exactly if its coefficient at each monomial in the variables outside a set is, and these coefficients have variables
/// of the set alone.
pub fn parts_are_zero()
    ensures { PartsAreZero }
{}

/// Functions of z solve the determining equations exactly if the field with these components is invariant.
pub fn determining_is_invariant()
    ensures { DeterminingIsInvariant }
{}

/// All but finitely many of the determining equations are empty: there is a list of the others.
pub fn determining_is_finite()
    ensures { DeterminingIsFinite }
{}

/// A field with polynomial components is invariant exactly if the determining system gives it: the system of the determining equations,
/// divided by terms, for the unknowns 1 to p + q, each of all z, one for each component.
pub fn invariant_is_given()
    ensures { InvariantIsGiven }
{}
