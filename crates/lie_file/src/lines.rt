// The lines of a file, and the places of faults in them.
ghost use Rattle.std.specs.Prelude.{◌≡◌, ◌≤◌, ◌+◌, length, map, IfOk, ◌==◌, option_map, IfSome};
ghost use Rattle.std.specs.List.{slice_split};
ghost use Rattle.lie_file.specs.FileLines.{is_word, behind_word, IsFailed};
ghost use Rattle.lie_file.specs.Places.{fault_at, next_line};
ghost use Rattle.lie_file.specs.declared.lines.FileFail.TheVariants.{NoMemory};
ghost use Rattle.lie_scan.specs.Limits.{greatest_text_length};

use lie_scan::fault::BadKind;
use lie_scan::runs::{Class, after_blanks, split_run};
use lie_scan::stop::{LineFail, Stop};
use std::alloc::{AllocError, AllocFailed, Global};

/// A fault in a file: how many lines are left at its line, that line included, and its column.
#[derive(Clone, Copy, Debug, PartialEq, Eq)]
pub struct FileStop {
    pub kind: BadKind,
    pub lines_left: usize,
    pub column: usize,
}

/// Why a file is not read.
#[derive(Clone, Copy, Debug, PartialEq, Eq)]
pub enum FileFail {
    Fault(FileStop),
    /// The file ends too early.
    Ended,
    NoMemory,
}

impl From<lie_bytes::NoMemory> for FileFail {
    ghost from_gives = { λ _ e. e ≡ NoMemory };

    fn from(_: lie_bytes::NoMemory) -> FileFail {
        FileFail::NoMemory
    }
}

impl From<AllocError> for FileFail {
    ghost from_gives = { λ _ e. e ≡ NoMemory };

    fn from(_: AllocError) -> FileFail {
        FileFail::NoMemory
    }
}

impl<T: Drop> From<AllocFailed<T>> for FileFail {
    ghost from_gives = { λ _ e. e ≡ NoMemory };

    fn from(_: AllocFailed<T>) -> FileFail {
        FileFail::NoMemory
    }
}

/// The parts of a text between line ends.
pub fn lines_of(alloc: Global, text: &[u8]) -> Result<Vec<&[u8]>, AllocError>
    ensures lines { IfOk result (λ parts. map (λ p. p.now) parts.items ≡ slice_split (λ b. b == 10) text.now) }
    ensures few { IfOk result (λ parts. length parts.items ≤ length text.now + 1) }
{
    text.split(|b| *b == 10).collect(alloc)
}

/// The next line that is not skipped: its content, and the lines behind it.
pub fn next_line<'a>(lines: &'a [&'a [u8]]) -> Option<(&'a [u8], &'a [&'a [u8]])>
    ensures line { option_map (λ x. (x.0.now, map (λ l. l.now) x.1.now)) result ≡ next_line (map (λ l. l.now) lines.now) }
    ensures fewer { IfSome result (λ x. length x.1.now ≤ length lines.now) }
{
    let mut i = 0;
    while i < lines.len() {
        let (content, _) = split_run(Class::Content, lines[i]);
        i += 1;
        if !after_blanks(content).is_empty() {
            return Some((content, &lines[i..]));
        }
    }
    None
}

/// A fault of the content of a line, at its last bytes, where `left` lines are behind it.
pub fn fault_at(kind: BadKind, content: &[u8], left: usize, text: &[u8]) -> FileFail
    requires { left ≤ greatest_text_length + 1 }
    ensures { result ≡ fault_at kind content.now left text.now }
{
    FileFail::Fault(FileStop {
        kind,
        lines_left: left + 1,
        column: content.len().saturating_sub(text.len()) + 1,
    })
}

/// Why a file is not read whose line is not read.
pub fn failed(fail: LineFail, content: &[u8], left: usize) -> FileFail
    requires { left ≤ greatest_text_length + 1 }
    ensures { IsFailed fail content.now left result }
{
    match fail {
        LineFail::Fault(stop) => FileFail::Fault(FileStop {
            kind: stop.kind,
            lines_left: left + 1,
            column: content.len().saturating_sub(stop.left) + 1,
        }),
        LineFail::NoMemory => FileFail::NoMemory,
    }
}

/// Whether the first word of a text is a keyword.
pub fn is_word(keyword: &[u8], text: &[u8]) -> bool
    ensures { result ≡ is_word keyword.now text.now }
{
    split_run(Class::Word, after_blanks(text)).0 == keyword
}

/// What is behind the first word of a text.
pub fn behind_word(text: &[u8]) -> &[u8]
    ensures { result.now ≡ behind_word text.now }
{
    split_run(Class::Word, after_blanks(text)).1
}
