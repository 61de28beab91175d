//! The triples of a linear form, and the order of equations.

ghost use Rattle.std.specs.Prelude.{◌≡◌};
ghost use Rattle.lie_math.specs.LinearForm.{LinearForm};
ghost use Rattle.lie_systems.specs.Triples.{triples, sum_of_triples};
ghost use Rattle.lie_systems.specs.Laws.{EquationOrderIsTotal};

/// A linear form is the sum of its triples.
pub fn form_is_sum_of_triples()
    ensures { (E : LinearForm) → sum_of_triples (triples E) ≡ E }
{}

/// The order of equations is total, and only equal equations tie.
pub fn equation_order_is_total()
    ensures { EquationOrderIsTotal }
{}
