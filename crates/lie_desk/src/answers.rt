// What the desk answers.
ghost use Rattle.std.specs.Prelude.{◌≡◌};
ghost use Rattle.lie_desk.specs.declared.answers.DeskFail.TheVariants as fails;
ghost use Rattle.lie_desk.specs.Desk.{not_kept, not_made};

use lie_outer::{KeeperFail, NoMemory, Text};
use lie_work::{NoText, Refusal};

/// Why a call of the desk gives nothing. The rows are as they were.
#[derive(Drop, Debug)]
pub enum DeskFail {
    /// It is refused, for a cause of the file or of the rows.
    Refused(Refusal),
    /// The keeper failed.
    KeeperFault,
    /// There was no memory.
    NoMemory,
}

/// A report of a studied file.
#[derive(Drop, Debug)]
pub struct Study {
    /// The report.
    pub report: Text,
    /// Whether a row was put for it; where not, it was kept.
    pub is_new: bool,
}

impl From<NoMemory> for DeskFail {
    ghost from_gives = { λ _ fail. fail ≡ fails.NoMemory };

    fn from(_error: NoMemory) -> DeskFail {
        DeskFail::NoMemory
    }
}

/// A keeper that gives nothing.
pub fn not_kept(fail: KeeperFail) -> DeskFail
    ensures { result ≡ not_kept fail }
{
    match fail {
        KeeperFail::Failed => DeskFail::KeeperFault,
        KeeperFail::NoMemory => DeskFail::NoMemory,
    }
}

/// Work that makes nothing.
pub fn not_made(none: NoText) -> DeskFail
    ensures { result ≡ not_made none }
{
    match none {
        NoText::Refused(refusal) => DeskFail::Refused(refusal),
        NoText::NoMemory => DeskFail::NoMemory,
    }
}
