//! What is said of the outcome that is due: where the files and the rows are told, there is one for each command.
ghost use Rattle.std.specs.Prelude.{ℕ, List, Some};
ghost use Rattle.lie_outer.specs.declared.rows.Row.{Row as ARow};
ghost use Rattle.lie_work.specs.declared.outcome.Outcome.{Outcome as AnOutcome};
ghost use Rattle.lie_app.specs.Outside.{outside};
ghost use Rattle.lie_app.specs.Run.{IsDue};
ghost use Rattle.lie_app.specs.Words.{AnyCommand};

use lie_desk::laws::some_study_is_due;
use lie_sample::laws::some_sample_is_due;
use lie_work::laws::some_work_is_due;

/// Some outcome of a command is due. It rests on the laws that some outcome of the work on its file is, some study, and
/// some sample.
pub fn some_outcome_is_due()
    ensures { (files : List (List ℕ × List ℕ)) (rows : List ARow) (c : AnyCommand)
        → ¬ ((due : AnOutcome) → ¬ (IsDue (outside (Some files) (Some rows)) c due)) }
{
    some_work_is_due();
    some_study_is_due();
    some_sample_is_due();
}
