// The status of a call, and its exit code.
ghost use Rattle.std.specs.Prelude.{◌≡◌};
ghost use Rattle.lie_status.specs.Outcomes.{outcome_of};
ghost use Rattle.lie_status.specs.Status.{code_of};

use lie_bytes::Text;
use lie_ring::PastKind;
use lie_scan::fault::BadFile;
use lie_solved::NotKind;
use lie_work::{Failure, Outcome, Refusal, Source};

/// How a call went.
#[derive(Drop, Debug)]
pub enum Status {
    /// The whole output was taken.
    Done,
    /// The words are no command.
    Usage,
    /// The file or the field has a fault; this is the first.
    Bad(Source, BadFile),
    /// The equation with this number, counted from 1, cannot be solved.
    Not(NotKind, u32),
    /// A step of the work passes this limit.
    Past {
        /// The number of the step: 0 for determining equations and for the check of a field, and from 1 on those of a run.
        step: u64,
        /// The limit.
        what: PastKind,
    },
    /// The run made these steps, all that it may, and a rule applies.
    Spent {
        /// The steps.
        steps: u64,
    },
    /// There was no memory.
    NoMemory,
    /// The file could not be read.
    ReadFault,
    /// The output could not be written.
    WriteFault,
    /// The keeper of studies failed.
    KeeperFault,
    /// The service could not listen, or open a connection.
    LinkFault,
    /// The file is not there, or no row has the name.
    Missing,
    /// The name is kept with another text.
    Taken {
        /// That text.
        text: Text,
    },
    /// No room is left for a further row.
    Full,
}

// The status that tells a refusal.
fn refused(refusal: Refusal) -> Status
    ensures { outcome_of result ≡ Outcome.Refused refusal }
{
    match refusal {
        Refusal::Usage => Status::Usage,
        Refusal::Missing => Status::Missing,
        Refusal::Bad(source, bad) => Status::Bad(source, bad),
        Refusal::Not(kind, equation) => Status::Not(kind, equation),
        Refusal::Past { step, what } => Status::Past { step, what },
        Refusal::Spent { steps } => Status::Spent { steps },
        Refusal::Taken { text } => Status::Taken { text },
        Refusal::Full => Status::Full,
    }
}

/// The status that tells how a call went.
pub fn status_of(outcome: Outcome) -> Status
    ensures { outcome_of result ≡ outcome }
{
    match outcome {
        Outcome::Done => Status::Done,
        Outcome::Refused(refusal) => refused(refusal),
        Outcome::Failed(Failure::NoMemory) => Status::NoMemory,
        Outcome::Failed(Failure::ReadFault) => Status::ReadFault,
        Outcome::Failed(Failure::WriteFault) => Status::WriteFault,
        Outcome::Failed(Failure::KeeperFault) => Status::KeeperFault,
        Outcome::Failed(Failure::LinkFault) => Status::LinkFault,
    }
}

/// The exit code of the status. Takes no memory.
pub fn code(status: &Status) -> u8
    ensures { result ≡ code_of status.now }
{
    match status {
        Status::Done => 0,
        Status::Usage => 2,
        Status::Bad(_, _) => 3,
        Status::Not(_, _) => 4,
        Status::Past { .. } => 5,
        Status::Spent { .. } => 6,
        Status::NoMemory => 7,
        Status::ReadFault => 8,
        Status::WriteFault => 9,
        Status::KeeperFault => 10,
        Status::LinkFault => 11,
        Status::Missing => 12,
        Status::Taken { .. } => 13,
        Status::Full => 14,
    }
}
