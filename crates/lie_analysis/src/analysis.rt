// The analysis of a solved system within a budget of steps.
ghost use Rattle.std.specs.Prelude.{◌≡◌, ◌≤◌, option_map, IfOk, IfErr};
ghost use Rattle.lie_report.specs.Reports.{found_of};
ghost use Rattle.lie_solved.specs.Solved.{equations_of};
ghost use Rattle.lie_analysis.specs.Answers.{IsAnalysed, IsUnfinished, unfinished_at, unfinished_run};
ghost use Rattle.lie_analysis.specs.declared.analysis.Unfinished.TheVariants as variants;
ghost use Rattle.lie_analysis.specs.Limits.{greatest_budget};
ghost use Rattle.lie_analysis.specs.Symmetries.{IsSymmetries};

use crate::algebra::told_of;
use crate::laws::{analysis_is_symmetries, end_basis_is_closed, works_are_of_parts};
use lie_bytes::NoMemory;
use lie_determining::determining;
use lie_jet::space_is_small;
use lie_lin::LinSystem;
use lie_report::Found;
use lie_ring::{PastKind, PolyFail};
use lie_solve::{Stop, run_steps};
use lie_solved::Solved;
use std::alloc::Global;

/// The greatest budget.
pub const MAX_BUDGET: u64 = 10_000_000;

/// The symmetries of a solved system.
#[derive(Drop)]
pub struct Analysis {
    /// A system that gives them, to which no rule applies.
    pub system: LinSystem,
    /// Their reduced basis and its commutators, where no equation is left and all unknowns are constants.
    pub found: Option<Found>,
}

/// Why an analysis came to no end.
#[derive(Clone, Copy, PartialEq, Eq, Debug)]
pub enum Unfinished {
    /// An action is past a limit.
    Past {
        /// The step. The making of the determining equations is step 0, and the steps of the run are counted from 1, the search that
        /// finds no further rule included; then come the basis and the table of commutators.
        step: u64,
        /// The limit.
        what: PastKind,
    },
    /// The steps of the budget were made, and a rule applies.
    Spent,
    /// There was no memory.
    NoMemory,
}

impl From<NoMemory> for Unfinished {
    ghost from_gives = { λ _ fail. fail ≡ variants.NoMemory };

    fn from(_fail: NoMemory) -> Unfinished {
        Unfinished::NoMemory
    }
}

impl From<Stop> for Unfinished {
    ghost from_gives = { λ stop fail. fail ≡ unfinished_run stop };

    fn from(stop: Stop) -> Unfinished {
        match stop {
            Stop::Past { step, what } => Unfinished::Past { step, what },
            Stop::Spent { .. } => Unfinished::Spent,
            Stop::NoMemory => Unfinished::NoMemory,
        }
    }
}

/// The answer where the actions of the step of this number fail.
pub fn unfinished_at(step: u64, fail: PolyFail) -> Unfinished
    ensures { result ≡ unfinished_at step fail }
{
    match fail {
        PolyFail::Past(what) => Unfinished::Past { step, what },
        PolyFail::NoMemory => Unfinished::NoMemory,
    }
}

/// The symmetries of a solved system: its determining equations, solved by the rules until none applies; and where no equation is left
/// and all unknowns are constants, the reduced basis of the symmetries and the table of their commutators, with the general form that
/// has a constant for each of the basis (Olver, Applications of Lie Groups to Differential Equations, sections 2.4 and 1.4).
///
/// `Spent` comes exactly where the run takes more steps than the budget, and none of the actions is past a limit. `Past` comes exactly
/// where an action is past a limit; of the steps that have one it tells the first.
pub fn analyse(alloc: Global, solved: &Solved, budget: u64) -> Result<Analysis, Unfinished>
    requires { budget ≤ greatest_budget }
    ensures space { IfOk result (λ made. made.system.space ≡ solved.now.system.space) }
    ensures analysed { IfOk result (λ made. IsAnalysed solved.now.system.space (equations_of solved.now) budget made.system.system
        (option_map found_of made.found)) }
    ensures meaning { IfOk result (λ made. IsSymmetries solved.now.system.space (equations_of solved.now) made.system.system
        (option_map found_of made.found)) }
    ensures unfinished { IfErr result (IsUnfinished solved.now.system.space (equations_of solved.now) budget) }
{
    space_is_small(solved.system.space);
    works_are_of_parts();
    end_basis_is_closed();
    analysis_is_symmetries();
    let opening = match determining(alloc, solved) {
        Ok(opening) => opening,
        Err(fail) => return Err(unfinished_at(0, fail)),
    };
    let (last, steps) = run_steps(opening, alloc, budget)?;
    told_of(alloc, last, steps)
}
