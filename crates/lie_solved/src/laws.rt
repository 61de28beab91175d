//! What is said of solved forms: a system has one at most, one that is refused has none, and a written one has a solved form or is refused.

ghost use Rattle.lie_solved.specs.Laws.{LeadsKeepRefusal, LeadsKeepSolvedForm, RefusalIsOne};
ghost use Rattle.lie_solved.specs.Laws.{RefusedHasNoForm, SolvedFormIsOne, SystemsAreSolvedOrRefused};

/// Two solved forms of a system are the same.
pub fn solved_form_is_one()
    ensures { SolvedFormIsOne }
{}

/// No condition holds of a system with a solved form.
pub fn refused_has_no_form()
    ensures { RefusedHasNoForm }
{}

/// A system is refused for one cause in one equation at most.
pub fn refusal_is_one()
    ensures { RefusalIsOne }
{}

/// A written system has a solved form or is refused.
pub fn systems_are_solved_or_refused()
    ensures { SystemsAreSolvedOrRefused }
{}

/// A system has the same solved form where an equation that is a derivative alone has it as its lead.
pub fn leads_keep_solved_form()
    ensures { LeadsKeepSolvedForm }
{}

/// It is also refused for the same cause in the same equation.
pub fn leads_keep_refusal()
    ensures { LeadsKeepRefusal }
{}
