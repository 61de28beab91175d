// What the failures of the work are told as.
ghost use Rattle.std.specs.Prelude.{◌≡◌};
ghost use Rattle.lie_work.specs.Causes.{not_read, not_solved, not_done, not_analysed, no_basis, put_outcome};

use crate::outcome::{Failure, NoText, Outcome, Refusal};
use crate::source::Source;
use lie_analysis::Unfinished;
use lie_degree::DegreeStop;
use lie_outer::SinkFail;
use lie_ring::PolyFail;
use lie_scan::fault::ReadFail;
use lie_solved::SolveFormFail;

/// A text that is not read.
pub fn not_read(source: Source, fail: ReadFail) -> NoText
    ensures { result ≡ not_read source fail }
{
    match fail {
        ReadFail::Bad(bad) => NoText::Refused(Refusal::Bad(source, bad)),
        ReadFail::NoMemory => NoText::NoMemory,
    }
}

/// A system without a solved form.
pub fn not_solved(fail: SolveFormFail) -> NoText
    ensures { result ≡ not_solved fail }
{
    match fail {
        SolveFormFail::Not(kind, equation) => NoText::Refused(Refusal::Not(kind, equation)),
        SolveFormFail::NoMemory => NoText::NoMemory,
    }
}

/// A step of the work that is past a limit.
pub fn not_done(step: u64, fail: PolyFail) -> NoText
    ensures { result ≡ not_done step fail }
{
    match fail {
        PolyFail::Past(what) => NoText::Refused(Refusal::Past { step, what }),
        PolyFail::NoMemory => NoText::NoMemory,
    }
}

/// An analysis without an end.
pub fn not_analysed(budget: u64, fail: Unfinished) -> NoText
    ensures { result ≡ not_analysed budget fail }
{
    match fail {
        Unfinished::Past { step, what } => NoText::Refused(Refusal::Past { step, what }),
        Unfinished::Spent => NoText::Refused(Refusal::Spent { steps: budget }),
        Unfinished::NoMemory => NoText::NoMemory,
    }
}

/// A system without a basis up to a degree.
pub fn no_basis(fail: DegreeStop) -> NoText
    ensures { result ≡ no_basis fail }
{
    match fail {
        DegreeStop::Past { step, what } => NoText::Refused(Refusal::Past { step, what }),
        DegreeStop::NoMemory => NoText::NoMemory,
    }
}

/// A put of the whole output.
pub fn put_outcome(put: Result<(), SinkFail>) -> Outcome
    ensures { result ≡ put_outcome put }
{
    match put {
        Ok(()) => Outcome::Done,
        Err(SinkFail::Failed) => Outcome::Failed(Failure::WriteFault),
        Err(SinkFail::NoMemory) => Outcome::Failed(Failure::NoMemory),
    }
}
