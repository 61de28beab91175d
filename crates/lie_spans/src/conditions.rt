//! Vector fields that meet linear conditions, up to a degree.

ghost use Rattle.lie_spans.specs.Laws.{SolutionsGiveSolvingFields, OpeningGivesSolutions};
ghost use Rattle.lie_spans.specs.Laws.{DegreeColumnsBoundDegree, SolutionsGiveDegreeBasis};

/// The solutions of the rows of equations are the reduced basis of the fields that are 0 outside some columns and solve the equations.
pub fn solutions_give_solving_fields()
    ensures { SolutionsGiveSolvingFields }
{}

/// A system whose unknowns are the components themselves gives a field exactly if its components solve the equations.
pub fn opening_gives_solutions()
    ensures { OpeningGivesSolutions }
{}

/// A field is 0 outside the columns up to a degree exactly if it has no term above that degree.
pub fn degree_columns_bound_degree()
    ensures { DegreeColumnsBoundDegree }
{}

/// The solutions are the reduced basis of the fields of bounded degree that such a system gives.
pub fn solutions_give_degree_basis()
    ensures { SolutionsGiveDegreeBasis }
{}
