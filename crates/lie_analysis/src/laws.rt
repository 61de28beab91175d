//! What is said of analyses: equations have one, it tells their symmetries, of its answers one holds at most, and one of them is due.

ghost use Rattle.lie_analysis.specs.Laws.{AnalysisIsSymmetries, EndBasisIsClosed, AnalysisIsUnique};
ghost use Rattle.lie_analysis.specs.Laws.{WorksAreOfParts, AnswersDiffer, SomeAnswerIsDue};

use lie_algebra::laws::{
    closed_form_gives_same_fields, closed_system_is_finite, system_basis_is_unique,
};
use lie_brackets::laws::{field_in_is_field_on, invariant_basis_is_closed, table_is_unique};
use lie_determining::laws::{opening_gives_invariant, opening_is_unique, opening_is_valid};
use lie_solve::outcomes_differ;
use lie_steps::runs::{finite_is_stuck, run_ends_once, run_keeps_fields};

/// What an analysis of solved equations tells are their symmetries.
pub fn analysis_is_symmetries()
    ensures { AnalysisIsSymmetries }
{
    opening_is_valid();
    opening_gives_invariant();
    run_keeps_fields();
    field_in_is_field_on();
    closed_form_gives_same_fields();
    closed_system_is_finite();
    finite_is_stuck();
}

/// The reduced basis of the fields that the end of the run gives is closed under the bracket.
pub fn end_basis_is_closed()
    ensures { EndBasisIsClosed }
{
    opening_is_valid();
    opening_gives_invariant();
    run_keeps_fields();
    field_in_is_field_on();
    invariant_basis_is_closed();
}

/// Equations have one analysis at most, whatever the budget.
pub fn analysis_is_unique()
    ensures { AnalysisIsUnique }
{
    opening_is_unique();
    opening_is_valid();
    run_ends_once();
    system_basis_is_unique();
    table_is_unique();
}

/// The work of an analysis is that of the opening system, then that of the run, and that of the algebra of its end.
pub fn works_are_of_parts()
    ensures { WorksAreOfParts }
{
    opening_is_unique();
    opening_is_valid();
    run_ends_once();
    outcomes_differ();
}

/// Of the answers of an analysis, its end, the spent budget and a step past a limit, one holds at most.
pub fn answers_differ()
    ensures { AnswersDiffer }
{
    opening_is_unique();
    opening_is_valid();
    run_ends_once();
    outcomes_differ();
}

/// One of the answers is due. The actions are not listed, so that none is cannot be, and no more is said.
pub fn some_answer_is_due()
    ensures { SomeAnswerIsDue }
{}
