//! Prolonged fields (Olver, section 2.3) and their commutators (section 1.3).

ghost use Rattle.lie_geometry.specs.ProlongationLaws.{AppliedIsField, CommutatorIsProlonged, FieldCrossesTotal};
ghost use Rattle.lie_geometry.specs.ProlongationLaws.{RecursionHolds, SymbolicIsProlongation};

/// The recursion `phi^a_(J+e_k) = D_k phi^a_J - sum over i of (D_k xi^i) * u^a_(J+e_i)` holds for each k: the order of the indices does
/// not matter.
pub fn recursion_holds()
    ensures { RecursionHolds }
{}

/// Applied to an equation of the system, the prolongation up to the system's order is the prolongation of every order.
pub fn applied_is_field()
    ensures { AppliedIsField }
{}

/// `D_k (pr v P) = pr v (D_k P) + sum over i of (D_k xi^i) * (D_i P)`.
pub fn field_crosses_total()
    ensures { FieldCrossesTotal }
{}

/// `pr [v,w] = [pr v, pr w]`.
pub fn commutator_is_prolonged()
    ensures { CommutatorIsProlonged }
{}

/// With functions of z put in for the unknowns, the symbolic prolongation is the prolongation of the field with these components.
pub fn symbolic_is_prolongation()
    ensures { SymbolicIsProlongation }
{}
