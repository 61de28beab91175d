//! What is said of bases up to a degree: equations have one, of the answers one holds at most, and one is due.

ghost use Rattle.lie_degree.specs.Laws.{DegreeBasisIsUnique, AnswersDiffer, SomeAnswerIsDue};

/// Equations have one basis up to a degree.
pub fn degree_basis_is_unique()
    ensures { DegreeBasisIsUnique }
{}

/// Of the answers one holds at most. Where there are too many columns, that alone is told of step 1.
pub fn answers_differ()
    ensures { AnswersDiffer }
{}

/// One of the answers is due. The actions are not listed, so that none is cannot be, and no more is said.
pub fn some_answer_is_due()
    ensures { SomeAnswerIsDue }
{}
