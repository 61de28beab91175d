// What is told of the end of a run.
ghost use Rattle.std.specs.Prelude.{◌≡◌, ◌+◌, ◌≤◌, ℕ, List, option_map, IfOk, IfErr, OnOk};
ghost use Rattle.lie_math.specs.LinearSystem.{Gives};
ghost use Rattle.lie_math.specs.VectorField.{VectorField};
ghost use Rattle.lie_spans.specs.Fields.{IsFieldBasis};
ghost use Rattle.lie_steps.specs.Runs.{IsFinite};
ghost use Rattle.lie_systems.specs.Works.{IsWorkWithin};
ghost use Rattle.lie_brackets.specs.Tables.{IsClosed};
ghost use Rattle.lie_report.specs.Reports.{found_of};
ghost use Rattle.lie_analysis.specs.Analyses.{IsToldOf};
ghost use Rattle.lie_analysis.specs.Answers.{IsAlgebraCause};
ghost use Rattle.lie_analysis.specs.Limits.{greatest_budget};
ghost use Rattle.lie_analysis.specs.Works.{AlgebraMakes};

use crate::analysis::{Analysis, Unfinished, unfinished_at};
use lie_algebra::laws::system_basis_is_unique;
use lie_algebra::{basis, close_form, finite};
use lie_brackets::table;
use lie_lin::LinSystem;
use lie_report::{Found, Table};
use std::alloc::Global;

/// The basis of a finite system, which a run of so many steps left, and its commutators, with the closed form of the system.
fn algebra_of(alloc: Global, last: &LinSystem, steps: u64) -> Result<Analysis, Unfinished>
    requires steps { steps ≤ greatest_budget }
    requires finite { IsFinite last.now.system }
    requires closed { (Vs : List VectorField) → IsFieldBasis (last.now.space.p + last.now.space.q) (Gives last.now.system) Vs
        → IsClosed last.now.space Vs }
    ensures space { IfOk result (λ made. made.system.space ≡ last.now.space) }
    ensures told { IfOk result (λ made. IsToldOf last.now.space last.now.system made.system.system (option_map found_of made.found)) }
    ensures fits { OnOk result ((k : ℕ) → IsWorkWithin (AlgebraMakes last.now.space last.now.system k)) }
    ensures cause { IfErr result (IsAlgebraCause last.now.space last.now.system steps) }
{
    system_basis_is_unique();
    let fields = match basis(alloc, last) {
        Ok(fields) => fields,
        Err(fail) => return Err(unfinished_at(steps + 2, fail)),
    };
    let entries = match table(alloc, last.space(), fields.as_slice()) {
        Ok(entries) => entries,
        Err(fail) => return Err(unfinished_at(steps + 3, fail)),
    };
    let system = close_form(alloc, last, fields.as_slice())?;
    let table = Table { entries };
    let found = Some(Found { fields, table });
    Ok(Analysis { system, found })
}

/// What is told of a system to which no rule applies, and which a run of so many steps left: itself; or, where it is finite, the basis
/// of its fields and its commutators, with its closed form. The fields that it gives are closed under the bracket.
pub fn told_of(alloc: Global, last: LinSystem, steps: u64) -> Result<Analysis, Unfinished>
    requires steps { steps ≤ greatest_budget }
    requires closed { (Vs : List VectorField) → IsFieldBasis (last.space.p + last.space.q) (Gives last.system) Vs
        → IsClosed last.space Vs }
    ensures space { IfOk result (λ made. made.system.space ≡ last.space) }
    ensures told { IfOk result (λ made. IsToldOf last.space last.system made.system.system (option_map found_of made.found)) }
    ensures fits { OnOk result (IsFinite last.system → (k : ℕ) → IsWorkWithin (AlgebraMakes last.space last.system k)) }
    ensures cause { IfErr result (IsAlgebraCause last.space last.system steps) }
{
    if finite(&last) {
        algebra_of(alloc, &last, steps)
    } else {
        let found = None;
        Ok(Analysis {
            system: last,
            found,
        })
    }
}
