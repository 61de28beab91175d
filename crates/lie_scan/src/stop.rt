// Where the reading of a line stops.
ghost use Rattle.std.specs.Prelude.{◌≡◌, length};
ghost use Rattle.lie_scan.specs.Stops.{stop as stop_of};
ghost use Rattle.lie_scan.specs.declared.stop.LineFail.TheVariants.{Fault, NoMemory};

use crate::fault::BadKind;
use std::alloc::{AllocError, AllocFailed};

/// A fault in the content of a line, and how many bytes of the content are left at its place.
#[derive(Clone, Copy, Debug, PartialEq, Eq)]
pub struct Stop {
    pub kind: BadKind,
    pub left: usize,
}

/// Why a line is not read.
#[derive(Clone, Copy, Debug, PartialEq, Eq)]
pub enum LineFail {
    Fault(Stop),
    NoMemory,
}

impl From<Stop> for LineFail {
    ghost from_gives = { λ stop e. e ≡ Fault stop };

    fn from(stop: Stop) -> LineFail {
        LineFail::Fault(stop)
    }
}

impl From<lie_bytes::NoMemory> for LineFail {
    ghost from_gives = { λ _ e. e ≡ NoMemory };

    fn from(_: lie_bytes::NoMemory) -> LineFail {
        LineFail::NoMemory
    }
}

impl From<AllocError> for LineFail {
    ghost from_gives = { λ _ e. e ≡ NoMemory };

    fn from(_: AllocError) -> LineFail {
        LineFail::NoMemory
    }
}

impl<T: Drop> From<AllocFailed<T>> for LineFail {
    ghost from_gives = { λ _ e. e ≡ NoMemory };

    fn from(_: AllocFailed<T>) -> LineFail {
        LineFail::NoMemory
    }
}

/// A fault at the first byte of a text.
pub fn stop_at(kind: BadKind, text: &[u8]) -> Stop
    ensures { result ≡ stop_of kind text.now }
{
    Stop {
        kind,
        left: text.len(),
    }
}
