// What can be wrong with a text, and where.
ghost use Rattle.std.specs.Prelude.{◌≡◌, min};
ghost use Rattle.lie_scan.specs.Bad.{bad};
ghost use Rattle.lie_scan.specs.declared.fault.ReadFail.TheVariants.{NoMemory};

use std::alloc::{AllocError, AllocFailed};

/// The most bytes of a text.
pub const MAX_BYTES: usize = 65_536;

/// What is wrong with a text. The kinds are numbered from 1 in this order.
#[derive(Clone, Copy, Debug, PartialEq, Eq)]
pub enum BadKind {
    /// More than 65,536 bytes.
    TooLong,
    /// A byte that is not allowed.
    NotAscii,
    /// The first line is not `lie 1`.
    Header,
    /// The first word of a line is not one that may come there.
    UnknownWord,
    /// A name is not one letter.
    NameBad,
    /// A name was given before.
    NameTwice,
    /// A coordinate has a name that was not given.
    UnknownName,
    /// A number, or a sum of absolute values of like terms, is past 2^127 - 1.
    Number,
    /// An exponent is not 1 to 32.
    Exponent,
    /// A derivative of an order past 6.
    Order,
    /// A fifth name in one line.
    TooManyNames,
    /// A seventeenth equation.
    TooManyEquations,
    /// A token that cannot come there, or a missing one.
    Syntax,
    /// The file ends before its last line.
    EndMissing,
}

/// The first fault of a text.
#[derive(Clone, Copy, Debug, PartialEq, Eq)]
pub struct BadFile {
    /// The line, from 1.
    pub line: u32,
    /// The byte in the line, from 1.
    pub column: u32,
    /// What is wrong there.
    pub kind: BadKind,
}

/// Why a text is not read.
#[derive(Clone, Copy, Debug, PartialEq, Eq)]
pub enum ReadFail {
    /// The text has a fault; this is the first.
    Bad(BadFile),
    /// There was no memory.
    NoMemory,
}

impl From<lie_bytes::NoMemory> for ReadFail {
    ghost from_gives = { λ _ e. e ≡ NoMemory };

    fn from(_: lie_bytes::NoMemory) -> ReadFail {
        ReadFail::NoMemory
    }
}

impl From<AllocError> for ReadFail {
    ghost from_gives = { λ _ e. e ≡ NoMemory };

    fn from(_: AllocError) -> ReadFail {
        ReadFail::NoMemory
    }
}

impl<T: Drop> From<AllocFailed<T>> for ReadFail {
    ghost from_gives = { λ _ e. e ≡ NoMemory };

    fn from(_: AllocFailed<T>) -> ReadFail {
        ReadFail::NoMemory
    }
}

// A place as 32 bits hold it.
fn shown(place: usize) -> u32
    ensures { result ≡ min place 4294967295 }
{
    if place <= 4_294_967_295 {
        place as u32
    } else {
        4_294_967_295
    }
}

/// A fault with its place.
pub fn bad(line: usize, column: usize, kind: BadKind) -> ReadFail
    ensures { result ≡ bad line column kind }
{
    ReadFail::Bad(BadFile {
        line: shown(line),
        column: shown(column),
        kind,
    })
}
