// Reading the bytes of a file.
ghost use Rattle.std.specs.Prelude.{◌≡◌, ◌≤◌, ◌+◌, length, map, IfOk, Ok, Err};
ghost use Rattle.lie_system.specs.Systems.{SystemRead};
ghost use Rattle.lie_scan.specs.declared.fault.ReadFail.{ReadFail as AFault};
ghost use Rattle.lie_file.specs.FileFaults.{IsFault, IsFaultToldOf};
ghost use Rattle.lie_file.specs.FileGrammar.{is_allowed, IsFile};
ghost use Rattle.lie_file.specs.FileLines.{AreShort};
ghost use Rattle.lie_file.specs.Reading.{read_lines, read_by, read};
ghost use Rattle.lie_scan.specs.ReadFails.{Answers};
ghost use Rattle.lie_scan.specs.Bad.{bad};
ghost use Rattle.lie_file.specs.Places.{last_length, file_fault, not_allowed_from};
ghost use Rattle.lie_system.specs.KeptSystems.{system_read};
ghost use Rattle.lie_scan.specs.Limits.{greatest_text_length};

use crate::file::system_of;
use crate::lines::{FileFail, lines_of};
use lie_scan::fault::{BadKind, MAX_BYTES, ReadFail, bad};
use lie_system::System;
use std::alloc::Global;

// Whether a byte is allowed before others.
fn is_allowed(byte: u8, behind: &[u8]) -> bool
    ensures { result ≡ is_allowed byte behind.now }
{
    if byte == b'\r' {
        match behind {
            [b'\n', ..] => true,
            _ => false,
        }
    } else {
        byte == b'\t' || byte == b'\n' || (b' ' <= byte && byte <= b'~')
    }
}

// The line and column of the first byte that is not allowed.
fn first_not_allowed(bytes: &[u8]) -> Option<(usize, usize)>
    requires { length bytes.now ≤ greatest_text_length }
    ensures { result ≡ not_allowed_from 1 1 bytes.now }
{
    let mut line = 1;
    let mut column = 1;
    let mut i = 0;
    while i < bytes.len() {
        let byte = bytes[i];
        i += 1;
        if !is_allowed(byte, &bytes[i..]) {
            return Some((line, column));
        }
        if byte == b'\n' {
            line += 1;
            column = 1;
        } else {
            column += 1;
        }
    }
    None
}

// The length of the last line.
fn last_length(lines: &[&[u8]]) -> usize
    ensures { result ≡ last_length (map (λ l. l.now) lines.now) }
{
    let mut last = 0;
    for line in lines {
        last = line.len();
    }
    last
}

// The fault of a file of these lines with its place.
fn file_fault(lines: &[&[u8]], fail: FileFail) -> ReadFail
    requires { length lines.now ≤ greatest_text_length + 1 }
    ensures { result ≡ file_fault (map (λ l. l.now) lines.now) fail }
{
    match fail {
        FileFail::Fault(stop) => bad(
            lines.len().saturating_sub(stop.lines_left) + 1,
            stop.column,
            stop.kind,
        ),
        FileFail::Ended => bad(
            lines.len(),
            last_length(lines).saturating_add(1),
            BadKind::EndMissing,
        ),
        FileFail::NoMemory => ReadFail::NoMemory,
    }
}

// The system that lines spell, or their first fault.
fn read_lines(alloc: Global, lines: &[&[u8]]) -> Result<System, ReadFail>
    requires few { length lines.now ≤ greatest_text_length + 1 }
    requires short { AreShort (map (λ l. l.now) lines.now) }
    ensures { Answers system_read result (read_lines (map (λ l. l.now) lines.now)) }
{
    match system_of(alloc, lines) {
        Ok(system) => Ok(system),
        Err(fail) => Err(file_fault(lines, fail)),
    }
}

// The system that bytes of at most 65,536 spell, or their first fault.
fn read_short(alloc: Global, bytes: &[u8]) -> Result<System, ReadFail>
    requires { length bytes.now ≤ greatest_text_length }
    ensures { Answers system_read result (read_by (not_allowed_from 1 1 bytes.now) bytes.now) }
{
    match first_not_allowed(bytes) {
        Some((line, column)) => Err(bad(line, column, BadKind::NotAscii)),
        None => {
            let lines = lines_of(alloc, bytes)?;
            read_lines(alloc, lines.as_slice())
        }
    }
}

// The system that the bytes spell, or their first fault.
#[tactic(auto, unfolding(crate::specs::Reading::read))]
fn read_bytes(alloc: Global, bytes: &[u8]) -> Result<System, ReadFail>
    ensures { Answers system_read result (read bytes.now) }
{
    if MAX_BYTES < bytes.len() {
        return Err(bad(1, 1, BadKind::TooLong));
    }
    read_short(alloc, bytes)
}

/// The system whose file the bytes are, or their first fault.
pub fn read_system(alloc: Global, bytes: &[u8]) -> Result<System, ReadFail>
    // What is read is the file of the system, of at most 65,536 bytes.
    ensures found { IfOk result (λ s. IsFile bytes.now (system_read s) × (length bytes.now ≤ greatest_text_length)) }
    // A file of at most 65,536 bytes is read as its system, unless memory runs out.
    ensures only { (s : SystemRead) → IsFile bytes.now s → length bytes.now ≤ greatest_text_length → Answers system_read result (Ok s) }
    // A fault that is told is the first fault of the bytes.
    ensures fault { IsFaultToldOf bytes.now result }
    // The first fault is told, unless memory runs out.
    ensures stops { (f : AFault) → IsFault bytes.now f → Answers system_read result (Err f) }
{
    read_bytes(alloc, bytes)
}
