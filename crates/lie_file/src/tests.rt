// Files and their faults, with places from a model that was written apart.

use crate::read_system;
use lie_bytes::NoMemory;
use lie_scan::fault::{BadFile, BadKind, ReadFail};
use std::alloc::Global;
use std::process::Abort;

// The fault of a file, and None where it is read or memory runs out.
pub fn fault_of(alloc: Global, text: &[u8]) -> Option<BadFile> {
    match read_system(alloc, text) {
        Err(ReadFail::Bad(fault)) => Some(fault),
        _ => None,
    }
}

// A file with these lines of equations.
pub fn file_of(alloc: Global, lines: &[u8], count: usize) -> Result<Vec<u8>, NoMemory> {
    let mut text = Vec::new(alloc);
    text.extend_from_slice(b"lie 1\nvars x t\ndeps u v\n".as_slice())?;
    for _ in 0..count {
        text.extend_from_slice(lines)?;
    }
    Ok(text)
}

// The file has this fault.
pub fn wants_fault(
    rt: &impl Abort,
    alloc: Global,
    text: &[u8],
    line: u32,
    column: u32,
    kind: BadKind,
) {
    assert!(rt; fault_of(alloc, text) == Some(BadFile { line, column, kind }));
}

#[test]
fn faults_of_the_header_have_their_places(rt: HostRuntime) {
    let alloc = rt.alloc();
    wants_fault(&rt, alloc, b"".as_slice(), 1, 1, BadKind::Header);
    wants_fault(&rt, alloc, b"# c\n".as_slice(), 1, 1, BadKind::Header);
    wants_fault(&rt, alloc, b"lie 2\n".as_slice(), 1, 1, BadKind::Header);
    wants_fault(&rt, alloc, b" lie\n".as_slice(), 1, 2, BadKind::Header);
    wants_fault(&rt, alloc, b"\nlie 1 1\n".as_slice(), 2, 1, BadKind::Header);
    wants_fault(&rt, alloc, b"li".as_slice(), 1, 1, BadKind::Header);
}

#[test]
fn unknown_words_have_their_places(rt: HostRuntime) {
    let alloc = rt.alloc();
    wants_fault(
        &rt,
        alloc,
        b"lie 1\nvar x\n".as_slice(),
        2,
        1,
        BadKind::UnknownWord,
    );
    wants_fault(
        &rt,
        alloc,
        b"lie 1\nvars x\ndep u\n".as_slice(),
        3,
        1,
        BadKind::UnknownWord,
    );
    wants_fault(
        &rt,
        alloc,
        b"lie 1\nvars x\ndeps u\nequ u_x = 0\n".as_slice(),
        4,
        1,
        BadKind::UnknownWord,
    );
    wants_fault(
        &rt,
        alloc,
        b"lie 1\nend\n".as_slice(),
        2,
        1,
        BadKind::UnknownWord,
    );
}

#[test]
fn unknown_words_at_the_end_have_their_places(rt: HostRuntime) {
    let alloc = rt.alloc();
    wants_fault(
        &rt,
        alloc,
        b"lie 1\nvars x\nend\n".as_slice(),
        3,
        1,
        BadKind::UnknownWord,
    );
    wants_fault(
        &rt,
        alloc,
        b"lie 1\nvars x t\ndeps u v\neq u_x = 0\nend\n u\n".as_slice(),
        6,
        2,
        BadKind::UnknownWord,
    );
    wants_fault(
        &rt,
        alloc,
        b"lie 1\nvars x t\ndeps u v\neq u_x = 0\nend\n  # c\nlie 1\n".as_slice(),
        7,
        1,
        BadKind::UnknownWord,
    );
}

#[test]
fn bad_names_have_their_places(rt: HostRuntime) {
    let alloc = rt.alloc();
    wants_fault(
        &rt,
        alloc,
        b"lie 1\nvars xy\n".as_slice(),
        2,
        6,
        BadKind::NameBad,
    );
    wants_fault(
        &rt,
        alloc,
        b"lie 1\nvars x xy\n".as_slice(),
        2,
        8,
        BadKind::NameBad,
    );
    wants_fault(
        &rt,
        alloc,
        b"lie 1\nvars X\n".as_slice(),
        2,
        6,
        BadKind::NameBad,
    );
    wants_fault(
        &rt,
        alloc,
        b"lie 1\nvars x 1\n".as_slice(),
        2,
        8,
        BadKind::NameBad,
    );
}

#[test]
fn bad_names_among_others_have_their_places(rt: HostRuntime) {
    let alloc = rt.alloc();
    wants_fault(
        &rt,
        alloc,
        b"lie 1\nvars x\ndeps u, v\n".as_slice(),
        3,
        6,
        BadKind::NameBad,
    );
    wants_fault(
        &rt,
        alloc,
        b"lie 1\nvars a b c d aa\n".as_slice(),
        2,
        14,
        BadKind::NameBad,
    );
}

#[test]
fn names_twice_have_their_places(rt: HostRuntime) {
    let alloc = rt.alloc();
    wants_fault(
        &rt,
        alloc,
        b"lie 1\nvars x x\n".as_slice(),
        2,
        8,
        BadKind::NameTwice,
    );
    wants_fault(
        &rt,
        alloc,
        b"lie 1\nvars x t\ndeps u t\n".as_slice(),
        3,
        8,
        BadKind::NameTwice,
    );
    wants_fault(
        &rt,
        alloc,
        b"lie 1\nvars x\ndeps u v u\n".as_slice(),
        3,
        10,
        BadKind::NameTwice,
    );
}

#[test]
fn names_past_the_limit_have_their_places(rt: HostRuntime) {
    let alloc = rt.alloc();
    wants_fault(
        &rt,
        alloc,
        b"lie 1\nvars x y z s t\n".as_slice(),
        2,
        14,
        BadKind::TooManyNames,
    );
    wants_fault(
        &rt,
        alloc,
        b"lie 1\nvars x\ndeps a b c d e\n".as_slice(),
        3,
        14,
        BadKind::TooManyNames,
    );
    wants_fault(
        &rt,
        alloc,
        b"lie 1\nvars a b c d a\n".as_slice(),
        2,
        14,
        BadKind::TooManyNames,
    );
}

#[test]
fn bad_syntax_of_lines_has_its_place(rt: HostRuntime) {
    let alloc = rt.alloc();
    wants_fault(
        &rt,
        alloc,
        b"lie 1\nvars\n".as_slice(),
        2,
        5,
        BadKind::Syntax,
    );
    wants_fault(
        &rt,
        alloc,
        b"lie 1\nvars x\ndeps  # none\n".as_slice(),
        3,
        7,
        BadKind::Syntax,
    );
    wants_fault(
        &rt,
        alloc,
        b"lie 1\nvars x t\ndeps u v\nend\n".as_slice(),
        4,
        1,
        BadKind::Syntax,
    );
    wants_fault(
        &rt,
        alloc,
        b"lie 1\nvars x t\ndeps u v\neq u_x = 0\nend x\n".as_slice(),
        5,
        5,
        BadKind::Syntax,
    );
}

#[test]
fn bad_syntax_at_the_end_has_its_place(rt: HostRuntime) {
    let alloc = rt.alloc();
    wants_fault(
        &rt,
        alloc,
        b"lie 1\nvars x\ndeps u\neq u_".as_slice(),
        4,
        6,
        BadKind::Syntax,
    );
}

#[test]
fn missing_ends_have_their_places(rt: HostRuntime) {
    let alloc = rt.alloc();
    wants_fault(
        &rt,
        alloc,
        b"lie 1\nvars x\ndeps u\neq u_x = 0\n".as_slice(),
        5,
        1,
        BadKind::EndMissing,
    );
    wants_fault(
        &rt,
        alloc,
        b"lie 1\nvars x\ndeps u\neq u_x = 0".as_slice(),
        4,
        11,
        BadKind::EndMissing,
    );
    wants_fault(&rt, alloc, b"lie 1".as_slice(), 1, 6, BadKind::EndMissing);
    wants_fault(
        &rt,
        alloc,
        b"lie 1\n\n\nvars x # c".as_slice(),
        4,
        11,
        BadKind::EndMissing,
    );
    wants_fault(
        &rt,
        alloc,
        b"lie 1\r\nvars x\r\n".as_slice(),
        3,
        1,
        BadKind::EndMissing,
    );
}

#[test]
fn bytes_that_are_not_allowed_have_their_places(rt: HostRuntime) {
    let alloc = rt.alloc();
    wants_fault(
        &rt,
        alloc,
        b"lie 1\nvars x\r".as_slice(),
        2,
        7,
        BadKind::NotAscii,
    );
    wants_fault(&rt, alloc, b"lie 1\x80".as_slice(), 1, 6, BadKind::NotAscii);
    wants_fault(
        &rt,
        alloc,
        b"\tlie 1\n\x0bvars x\n".as_slice(),
        2,
        1,
        BadKind::NotAscii,
    );
    wants_fault(
        &rt,
        alloc,
        b"lie 1\nvars x\r\r\n".as_slice(),
        2,
        7,
        BadKind::NotAscii,
    );
    wants_fault(
        &rt,
        alloc,
        b"lie 1 # \x7f\n".as_slice(),
        1,
        9,
        BadKind::NotAscii,
    );
}
