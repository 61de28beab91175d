//! What finite systems, their bases and their closed forms are.

ghost use Rattle.std.specs.Prelude.{ℕ, List};
ghost use Rattle.lie_math.specs.VectorField.{VectorField};
ghost use Rattle.lie_spans.specs.ClosedSystems.{closed_system};
ghost use Rattle.lie_steps.specs.Runs.{IsFinite};
ghost use Rattle.lie_algebra.specs.BasisWork.{BasisOutcome};
ghost use Rattle.lie_algebra.specs.Laws.{FiniteIsConstant, SystemBasisIsUnique, ClosedFormGivesSameFields, ClosedSystemIsValid};

/// In a valid system without equations, whose unknowns are constants, these unknowns alone occur, each without a derivative.
pub fn finite_is_constant()
    ensures { FiniteIsConstant }
{}

/// At most one list is the reduced basis of the fields that a system gives.
pub fn system_basis_is_unique()
    ensures { SystemBasisIsUnique }
{}

/// The basis of a system is within the limits or past one of them, and of these outcomes no two hold.
pub fn basis_has_one_outcome()
    ensures { BasisOutcome }
{}

/// The closed system of the basis of a system gives the same fields.
pub fn closed_form_gives_same_fields()
    ensures { ClosedFormGivesSameFields }
{}

/// A closed system has no equation, and its unknowns are constants.
pub fn closed_system_is_finite()
    ensures { (n : ℕ) (Vs : List VectorField) → IsFinite (closed_system n Vs) }
{}

/// The closed system of fields is valid.
pub fn closed_system_is_valid()
    ensures { ClosedSystemIsValid }
{}
