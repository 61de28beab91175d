//! What is said of the work on a file: for all bytes some outcome of each command is due. And what is said of texts: the budget of a run
//! changes none.
ghost use Rattle.std.specs.Prelude.{◌≡◌, ℕ, List};
ghost use Rattle.lie_work.specs.Analyse.{IsSymmetriesReport};
ghost use Rattle.lie_work.specs.Laws.{SomeWorkIsDue};

use lie_analysis::laws::{analysis_is_unique, some_answer_is_due};
use lie_check::laws::actions_are_not_within_and_past;
use lie_degree::laws::some_answer_is_due as some_basis_is_due;
use lie_determining::laws::opening_is_not_within_and_past;

/// Some outcome of a command is due for any bytes. It rests on the laws that the work is not both within the limits and past one, and
/// that an analysis has an answer.
pub fn some_work_is_due()
    ensures { SomeWorkIsDue }
{
    actions_are_not_within_and_past();
    opening_is_not_within_and_past();
    some_answer_is_due();
    some_basis_is_due();
}

/// The report of the symmetries is a function of the bytes of the file: whatever the budgets, a file has one at most.
pub fn symmetries_text_is_one()
    ensures { (bytes first second : List ℕ) (m n : ℕ) → IsSymmetriesReport bytes m first → IsSymmetriesReport bytes n second
        → first ≡ second }
{
    analysis_is_unique();
}
