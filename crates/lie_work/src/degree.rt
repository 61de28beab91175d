// The command `degree`.
ghost use Rattle.std.specs.Prelude.{◌≤◌, List, ℕ, IfOk, IfErr};
ghost use Rattle.lie_system.specs.KeptSystems.{system_read};
ghost use Rattle.lie_solved.specs.SolvedForms.{solved_equations};
ghost use Rattle.lie_degree.specs.Columns.{greatest_degree};
ghost use Rattle.lie_work.specs.declared.outcome.Outcome.{Outcome as AnOutcome};
ghost use Rattle.lie_work.specs.Degree.{IsDegreeReport, IsDegreeRefusal, IsDegreeDue};
ghost use Rattle.lie_work.specs.Outcomes.{IsRefusalOr};
ghost use Rattle.lie_work.specs.SolvedFile.{IsSolvedFile};
ghost use Rattle.lie_work.specs.Work.{IsMade};

use crate::causes::no_basis;
use crate::outcome::NoText;
use lie_degree::laws::answers_differ;
use lie_degree::symmetries_to_degree;
use lie_report::{Report, write_report};
use lie_solved::Solved;
use std::alloc::Global;

/// The report of the symmetries of a solved system up to a degree.
pub fn degree_of(alloc: Global, solved: &Solved, highest: u8) -> Result<Vec<u8>, NoText>
    requires { highest ≤ greatest_degree }
    ensures text { IfOk result (λ text. (bytes : List ℕ)
        → IsSolvedFile bytes (system_read solved.now.system) (solved_equations solved.now.system.space solved.now.rules.items)
        → IsDegreeReport bytes highest text.items) }
    ensures cause { IfErr result (λ none. (bytes : List ℕ)
        → IsSolvedFile bytes (system_read solved.now.system) (solved_equations solved.now.system.space solved.now.rules.items)
        → IsRefusalOr (IsDegreeRefusal bytes highest) none) }
    ensures due { (bytes : List ℕ) (due : AnOutcome)
        → IsSolvedFile bytes (system_read solved.now.system) (solved_equations solved.now.system.space solved.now.rules.items)
        → IsDegreeDue bytes highest due → IsMade due result }
{
    answers_differ();
    match symmetries_to_degree(alloc, solved, highest) {
        Ok(fields) => {
            let names = solved.system.names.copy(alloc)?;
            let report = Report::Degree {
                names,
                space: solved.system.space,
                most: highest,
                fields,
            };
            Ok(write_report(alloc, &report)?)
        }
        Err(fail) => Err(no_basis(fail)),
    }
}
