// Runs of a system within a budget of steps.
ghost use Rattle.std.specs.Prelude.{◌≡◌, ◌+◌, ◌-◌, ◌<◌, ◌^◌, IfOk, IfErr};
ghost use Rattle.lie_systems.specs.ValidSystems.{IsValid};
ghost use Rattle.lie_solve.specs.Runs.{EndsWithin, IsKept, IsStopped, OutcomesDiffer, stop_at};

use crate::attempts::Attempt;
use crate::indexed::Indexed;
use lie_lin::LinSystem;
use lie_ring::{PastKind, PolyFail};
use std::alloc::Global;

/// Why a run came to no end.
#[derive(Drop)]
pub enum Stop {
    /// An action is past a limit.
    Past {
        /// The step, counted from 1.
        step: u64,
        /// The limit.
        what: PastKind,
    },
    /// The steps of the budget were made, and a rule applies.
    Spent {
        /// What they made.
        system: LinSystem,
    },
    /// There was no memory.
    NoMemory,
}

/// Makes steps until no rule applies. Gives the system that is left, and the number of steps.
///
/// `Spent` comes exactly where the run takes more steps than the budget, and none of its actions is past a limit, those of the search
/// for one more step included. `Past` comes exactly where an action is past a limit; of the steps that have one it tells the first.
pub fn run_steps(system: LinSystem, alloc: Global, budget: u64) -> Result<(LinSystem, u64), Stop>
    requires { budget < 2 ^ 64 - 1 }
    ensures ended { IfOk result (λ end. EndsWithin system.system budget end.1 end.0.system) }
    ensures kept { IfOk result (λ end. IsKept system end.0) }
    ensures stopped { IfErr result (IsStopped system budget) }
{
    system_is_valid(&system);
    match Indexed::new(alloc, system) {
        Ok(indexed) => run_indexed(indexed, alloc, budget),
        Err(_) => Err(Stop::NoMemory),
    }
}

/// The same for a system that is kept with its tables.
fn run_indexed(indexed: Indexed, alloc: Global, budget: u64) -> Result<(LinSystem, u64), Stop>
    requires budget { budget < 2 ^ 64 - 1 }
    requires valid { IsValid (indexed.space.p + indexed.space.q) indexed.system }
    ensures ended { IfOk result (λ end. EndsWithin indexed.system budget end.1 end.0.system) }
    ensures kept { IfOk result (λ end. IsKept indexed end.0) }
    ensures stopped { IfErr result (IsStopped indexed budget) }
{
    let mut indexed = indexed;
    for made in 0..budget {
        match indexed.step(alloc) {
            Ok(Some(_)) => {}
            Ok(None) => return Ok((indexed.into_system(), made)),
            Err(fail) => return Err(stopped_at(made + 1, fail)),
        }
    }
    match indexed.find(alloc, Attempt::Test) {
        Ok(Some(_)) => Err(Stop::Spent {
            system: indexed.into_system(),
        }),
        Ok(None) => Ok((indexed.into_system(), budget)),
        Err(fail) => Err(stopped_at(budget + 1, fail)),
    }
}

/// A system is valid, which becomes known where this is called.
fn system_is_valid(system: &LinSystem)
    ensures { IsValid (system.now.space.p + system.now.space.q) system.now.system }
{
    let _ = system.space();
}

/// The stop where the search or the step of this number fails.
fn stopped_at(step: u64, fail: PolyFail) -> Stop
    ensures { result ≡ stop_at step fail }
{
    match fail {
        PolyFail::Past(what) => Stop::Past { step, what },
        PolyFail::NoMemory => Stop::NoMemory,
    }
}

/// Of the outcomes of a run, its end, the spent budget and an action past a limit, one holds at most: `run_steps` tells the one that
/// holds, unless there is no memory.
pub fn outcomes_differ()
    ensures { OutcomesDiffer }
{}
