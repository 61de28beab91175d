// How a call went, as it is told inside.
ghost use Rattle.std.specs.Prelude.{◌≡◌};
ghost use Rattle.lie_work.specs.declared.outcome.NoText.TheVariants as texts;

use crate::source::Source;
use lie_bytes::{NoMemory, Text};
use lie_ring::PastKind;
use lie_scan::fault::BadFile;
use lie_solved::NotKind;

/// Why a command is refused: a cause of the words, or of what they name.
#[derive(Drop, Debug)]
pub enum Refusal {
    /// The words are no command.
    Usage,
    /// The file is not there, or no row has the name.
    Missing,
    /// The file or the field has a fault; this is the first.
    Bad(Source, BadFile),
    /// The equation with this number, counted from 1, cannot be solved.
    Not(NotKind, u32),
    /// A step of the work passes this limit.
    Past {
        /// The number of the step.
        step: u64,
        /// The limit.
        what: PastKind,
    },
    /// The run made these steps, all that it may, and a rule applies.
    Spent {
        /// The steps.
        steps: u64,
    },
    /// The name is kept with another text.
    Taken {
        /// That text.
        text: Text,
    },
    /// No room is left for a further row.
    Full,
}

/// Why a command failed: a cause outside.
#[derive(Clone, Copy, Debug, PartialEq, Eq)]
pub enum Failure {
    /// There was no memory.
    NoMemory,
    /// The file could not be read.
    ReadFault,
    /// The output could not be written.
    WriteFault,
    /// The keeper of studies failed.
    KeeperFault,
    /// The service could not listen, or open a connection.
    LinkFault,
}

/// How a call went.
#[derive(Drop, Debug)]
pub enum Outcome {
    /// The whole output was taken.
    Done,
    /// It was refused, and nothing was put.
    Refused(Refusal),
    /// It failed.
    Failed(Failure),
}

/// Why the work of a command makes no text.
#[derive(Drop, Debug)]
pub enum NoText {
    /// It is refused.
    Refused(Refusal),
    /// There was no memory.
    NoMemory,
}

impl From<NoMemory> for NoText {
    ghost from_gives = { λ _ none. none ≡ texts.NoMemory };

    fn from(_fail: NoMemory) -> NoText {
        NoText::NoMemory
    }
}
