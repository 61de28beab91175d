// The analysis of the system of a file, and the command `analyse`, which puts its report.
ghost use Rattle.std.specs.Prelude.{◌≡◌, ◌≤◌, List, ℕ, IfOk, IfErr, option_map};
ghost use Rattle.lie_system.specs.KeptSystems.{system_read};
ghost use Rattle.lie_solved.specs.SolvedForms.{solved_equations};
ghost use Rattle.lie_solved.specs.Solved.{equations_of};
ghost use Rattle.lie_report.specs.Reports.{found_of};
ghost use Rattle.lie_analysis.specs.Answers.{IsAnalysed};
ghost use Rattle.lie_analysis.specs.Limits.{greatest_budget};
ghost use Rattle.lie_analysis.specs.Symmetries.{IsSymmetries};
ghost use Rattle.lie_work.specs.declared.outcome.Outcome.{Outcome as AnOutcome};
ghost use Rattle.lie_work.specs.Analyse.{IsSymmetriesReport, IsAnalyseRefusal, IsAnalyseDue};
ghost use Rattle.lie_work.specs.Outcomes.{IsRefusalOr};
ghost use Rattle.lie_work.specs.SolvedFile.{IsSolvedFile};
ghost use Rattle.lie_work.specs.Work.{IsMade};

use crate::causes::not_analysed;
use crate::outcome::NoText;
use lie_analysis::laws::answers_differ;
use lie_analysis::{Analysis, analyse};
use lie_report::{Report, write_report};
use lie_solved::Solved;
use std::alloc::Global;

/// The analysis of a solved system, by a run of at most so many steps, or why there is none.
pub fn analysis_of(alloc: Global, solved: &Solved, budget: u64) -> Result<Analysis, NoText>
    requires { budget ≤ greatest_budget }
    ensures space { IfOk result (λ made. made.system.space ≡ solved.now.system.space) }
    ensures analysed { IfOk result (λ made. IsAnalysed solved.now.system.space (equations_of solved.now) budget made.system.system
        (option_map found_of made.found)) }
    ensures meaning { IfOk result (λ made. IsSymmetries solved.now.system.space (equations_of solved.now) made.system.system
        (option_map found_of made.found)) }
    ensures cause { IfErr result (λ none. (bytes : List ℕ)
        → IsSolvedFile bytes (system_read solved.now.system) (solved_equations solved.now.system.space solved.now.rules.items)
        → IsRefusalOr (IsAnalyseRefusal bytes budget) none) }
    ensures due { (bytes : List ℕ) (due : AnOutcome)
        → IsSolvedFile bytes (system_read solved.now.system) (solved_equations solved.now.system.space solved.now.rules.items)
        → IsAnalyseDue bytes budget due → IsMade due result }
{
    answers_differ();
    match analyse(alloc, solved, budget) {
        Ok(analysis) => Ok(analysis),
        Err(fail) => Err(not_analysed(budget, fail)),
    }
}

/// The report of the symmetries of a solved system, by a run of at most so many steps.
pub fn symmetries_of(alloc: Global, solved: &Solved, budget: u64) -> Result<Vec<u8>, NoText>
    requires { budget ≤ greatest_budget }
    ensures text { IfOk result (λ text. (bytes : List ℕ)
        → IsSolvedFile bytes (system_read solved.now.system) (solved_equations solved.now.system.space solved.now.rules.items)
        → IsSymmetriesReport bytes budget text.items) }
    ensures cause { IfErr result (λ none. (bytes : List ℕ)
        → IsSolvedFile bytes (system_read solved.now.system) (solved_equations solved.now.system.space solved.now.rules.items)
        → IsRefusalOr (IsAnalyseRefusal bytes budget) none) }
    ensures due { (bytes : List ℕ) (due : AnOutcome)
        → IsSolvedFile bytes (system_read solved.now.system) (solved_equations solved.now.system.space solved.now.rules.items)
        → IsAnalyseDue bytes budget due → IsMade due result }
{
    let analysis = match analysis_of(alloc, solved, budget) {
        Ok(analysis) => analysis,
        Err(none) => return Err(none),
    };
    let names = solved.system.names.copy(alloc)?;
    let report = Report::Symmetries {
        names,
        system: analysis.system,
        found: analysis.found,
    };
    Ok(write_report(alloc, &report)?)
}
