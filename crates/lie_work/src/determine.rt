// The command `determine`.
ghost use Rattle.std.specs.Prelude.{List, ℕ, IfOk, IfErr};
ghost use Rattle.lie_system.specs.KeptSystems.{system_read};
ghost use Rattle.lie_solved.specs.SolvedForms.{solved_equations};
ghost use Rattle.lie_work.specs.declared.outcome.Outcome.{Outcome as AnOutcome};
ghost use Rattle.lie_work.specs.Determine.{IsReport, IsReportRefusal, IsDetermineDue};
ghost use Rattle.lie_work.specs.Outcomes.{IsRefusalOr};
ghost use Rattle.lie_work.specs.SolvedFile.{IsSolvedFile};
ghost use Rattle.lie_work.specs.Work.{IsMade};

use crate::causes::not_done;
use crate::outcome::NoText;
use lie_determining::determining;
use lie_report::determining_report;
use lie_solved::Solved;
use std::alloc::Global;

/// The report of the determining equations of a solved system.
pub fn report_of(alloc: Global, solved: &Solved) -> Result<Vec<u8>, NoText>
    ensures text { IfOk result (λ text. (bytes : List ℕ)
        → IsSolvedFile bytes (system_read solved.now.system) (solved_equations solved.now.system.space solved.now.rules.items)
        → IsReport bytes text.items) }
    ensures cause { IfErr result (λ none. (bytes : List ℕ)
        → IsSolvedFile bytes (system_read solved.now.system) (solved_equations solved.now.system.space solved.now.rules.items)
        → IsRefusalOr (IsReportRefusal bytes) none) }
    ensures due { (bytes : List ℕ) (due : AnOutcome)
        → IsSolvedFile bytes (system_read solved.now.system) (solved_equations solved.now.system.space solved.now.rules.items)
        → IsDetermineDue bytes due → IsMade due result }
{
    match determining(alloc, solved) {
        Ok(system) => Ok(determining_report(alloc, solved.system.names.bytes(), &system)?),
        Err(fail) => Err(not_done(0, fail)),
    }
}
