//! Normal forms by a list of equations.

ghost use Rattle.lie_steps.specs.Laws.{NormalFormExists, NormalFormIsUnique, NormalFormHasSameSolutions, NormalFormWorkByTurns};
ghost use Rattle.lie_steps.specs.Laws.{NoReductionNoWork, NormalFormIsWithinOrPast};

/// Each form of a valid system has a normal form.
pub fn normal_form_exists()
    ensures { NormalFormExists }
{}

/// It has one at most.
pub fn normal_form_is_unique()
    ensures { NormalFormIsUnique }
{}

/// The functions that solve the list solve a form exactly if they solve its normal form.
pub fn normal_form_has_same_solutions()
    ensures { NormalFormHasSameSolutions }
{}

/// The work of a normal form is that of one reduction and then that of the rest.
pub fn normal_form_work_by_turns()
    ensures { NormalFormWorkByTurns }
{}

/// Where nothing can be reduced there is no work.
pub fn no_reduction_no_work()
    ensures { NoReductionNoWork }
{}

/// The work of a normal form is within the limits, or past one of them.
pub fn normal_form_is_within_or_past()
    ensures { NormalFormIsWithinOrPast }
{}
