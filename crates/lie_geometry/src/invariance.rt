//! Reduction by a solved system and the infinitesimal condition of invariance (Olver, sections 2.2 and 2.3).

ghost use Rattle.lie_geometry.specs.InvarianceLaws.{CommutatorIsInvariant, FirstOrderIsInvariant, MultiplesAreInvariant};
ghost use Rattle.lie_geometry.specs.InvarianceLaws.{ReducedIsInIdeal, SameFieldsAreInvariant};

/// A polynomial is reduced to 0 exactly if a power product of the factors of the leads, times the polynomial, is a sum of multiples of
/// the equations' differences; where any number that is not 0 makes it one, such a power product does.
pub fn reduced_is_in_ideal()
    ensures { ReducedIsInIdeal }
{}

/// Components and their multiples by a number that is not 0 are invariant together.
pub fn multiples_are_invariant()
    ensures { MultiplesAreInvariant }
{}

/// Two fields that are the same as rational fields are invariant together: invariance does not depend on the denominator.
pub fn same_fields_are_invariant()
    ensures { SameFieldsAreInvariant }
{}

/// The commutator of two fields on the space is one, and the commutator of two invariant fields is invariant.
pub fn commutator_is_invariant()
    ensures { CommutatorIsInvariant }
{}

/// For `u_x = h(x,u)` the field `f1*d_x + f2*d_u` is invariant exactly if `f2_x + h*f2_u - h*f1_x - h^2*f1_u - h_u*f2 - h_x*f1 = 0`.
pub fn first_order_is_invariant()
    ensures { FirstOrderIsInvariant }
{}
