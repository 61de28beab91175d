//! Systems without equations whose unknowns are constants: the fields that they give.

ghost use Rattle.lie_spans.specs.Laws.{ConstantSystemGivesCombinations, EliminationGivesSystemBasis, ClosedSystemGivesCombinations};

/// A system without equations whose unknowns are constants gives the combinations of the fields that it gives for 1 in the place of one
/// unknown and 0 for the others.
pub fn constant_system_gives_combinations()
    ensures { ConstantSystemGivesCombinations }
{}

/// The elimination of the rows of these fields gives the reduced basis of the fields that the system gives.
pub fn elimination_gives_system_basis()
    ensures { EliminationGivesSystemBasis }
{}

/// The closed system of fields, with a constant for each, gives their combinations.
pub fn closed_system_gives_combinations()
    ensures { ClosedSystemGivesCombinations }
{}
