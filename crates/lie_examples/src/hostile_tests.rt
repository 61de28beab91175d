// Hostile use: files that are cut, calls that fail, limits at both sides.
use crate::path_tests::{puts, tells};
use lie_app::{Source, Status, code, run};
use lie_keep::MemoryKeeper;
use lie_outer::{Bytes, MemoryFiles, MemoryLink, MemorySink, Text};
use lie_scan::fault::{BadFile, BadKind};
use lie_solved::NotKind;
use std::alloc::Global;
use std::process::Abort;
use std::test::Fail;

const BURGERS: &[u8] = b"lie 1\nvars x t\ndeps u\neq u_t = u_xx + u*u_x\nend\n";

// The exit code of a call with one file, where these reads and puts of the output and of the error stream fail.
fn code_of(
    rt: &impl Abort,
    alloc: Global,
    command: &str,
    file: &[u8],
    (reads, puts, error_puts): (&[u64], &[u64], &[u64]),
) -> Result<u8, Fail> {
    let mut words = Vec::new(alloc);
    words.push(String::from_str(alloc, command)?)?;
    words.push(String::from_str(alloc, "f")?)?;
    let name = Text::of(alloc, b"f")?.expect(rt, "ASCII");
    let content = vec![in alloc; (name, Bytes::of(alloc, file)?)]?;
    let mut files = MemoryFiles::new(content, reads.to_vec(alloc)?);
    let mut out = MemorySink::new(Bytes::of(alloc, b"")?, puts.to_vec(alloc)?);
    let mut err = MemorySink::new(Bytes::of(alloc, b"")?, error_puts.to_vec(alloc)?);
    let mut keeper = MemoryKeeper::new(Vec::new(alloc), Vec::new(alloc));
    let mut link = MemoryLink::new(Vec::new(alloc), Vec::new(alloc));
    let status = run(
        alloc,
        &words,
        &mut files,
        &mut out,
        &mut err,
        &mut keeper,
        &mut link,
    );
    Ok(code(&status))
}

#[test]
fn cut_files_have_a_fault(rt: HostRuntime) -> Result<(), Fail> {
    let whole = BURGERS.len();
    for length in 0..=whole {
        let file = &BURGERS[..length];
        let found = code_of(&rt, rt.alloc(), "determine", file, (&[], &[], &[]))?;
        let want = if length + 1 >= whole { 0 } else { 3 };
        assert_eq!(rt; found, want);
    }
    Ok(())
}

#[test]
fn each_call_may_fail(rt: HostRuntime) -> Result<(), Fail> {
    let rows: [(&[u64], &[u64], &[u64], u8); 6] = [
        (&[1], &[], &[], 8),
        (&[], &[1], &[], 9),
        (&[], &[], &[1], 0),
        (&[1], &[1], &[1], 8),
        (&[2], &[2], &[], 0),
        (&[], &[1], &[1], 9),
    ];
    for command in ["determine", "analyse"] {
        for (reads, puts, error_puts, want) in rows {
            let failing = (reads, puts, error_puts);
            let found = code_of(&rt, rt.alloc(), command, BURGERS, failing)?;
            assert_eq!(rt; found, want);
        }
    }
    Ok(())
}

// A file with so many equal equations.
fn repeated(alloc: Global, count: usize) -> Result<Vec<u8>, Fail> {
    let mut file = b"lie 1\nvars x\ndeps u\n".to_vec(alloc)?;
    for _ in 0..count {
        file.extend_from_slice(b"eq u_x = 0\n")?;
    }
    file.extend_from_slice(b"end\n")?;
    Ok(file)
}

#[test]
fn equations_have_a_limit(rt: HostRuntime) -> Result<(), Fail> {
    let alloc = rt.alloc();
    let words: &[&str] = &["determine", "f"];
    let status = Status::Not(NotKind::LeadRepeated, 2);
    let line = b"lie: not solved: LeadRepeated in equation 2\n";
    tells(&rt, alloc, words, &repeated(alloc, 16)?, status, line)?;
    let fault = BadFile {
        line: 20,
        column: 1,
        kind: BadKind::TooManyEquations,
    };
    let status = Status::Bad(Source::File, fault);
    let line = b"lie: file: TooManyEquations at 20:1\n";
    tells(&rt, alloc, words, &repeated(alloc, 17)?, status, line)
}

// The highest exponent, and the next one.
const HIGHEST: &[u8] = b"lie 1\nvars x\ndeps u\neq u_x = u^32\nend\n";

const TOO_HIGH: &[u8] = b"lie 1\nvars x\ndeps u\neq u_x = u^33\nend\n";

#[test]
fn exponents_have_a_limit(rt: HostRuntime) -> Result<(), Fail> {
    let words: &[&str] = &["determine", "f"];
    let report = b"lie determining 1\nvars x\ndeps u\nfree f1(x,u)\nfree f2(x,u)\ngeneral x = f1\n\
        general u = f2\nremaining 1\nf2_x + u^32*f2_u - u^32*f1_x - u^64*f1_u - 32*u^31*f2 = 0\nend\n";
    puts(&rt, rt.alloc(), words, HIGHEST, report)?;
    let fault = BadFile {
        line: 4,
        column: 10,
        kind: BadKind::Exponent,
    };
    let status = Status::Bad(Source::File, fault);
    let line = b"lie: file: Exponent at 4:10\n";
    tells(&rt, rt.alloc(), words, TOO_HIGH, status, line)
}
