//! Rational polynomials, vector fields, and what a linear system gives.

ghost use Rattle.lie_math.specs.Laws.{SameRationalIsEquivalence, MultipleIsSameRational, GivesSameField};

/// Equality of rational polynomials, by cross multiples, is an equivalence.
pub fn same_rational_is_equivalence()
    ensures { SameRationalIsEquivalence }
{}

/// Both parts of a rational polynomial may be multiplied by a number.
pub fn multiple_is_same_rational()
    ensures { MultipleIsSameRational }
{}

/// Whether a system gives a field does not depend on how the field's components are written.
pub fn gives_same_field()
    ensures { GivesSameField }
{}
