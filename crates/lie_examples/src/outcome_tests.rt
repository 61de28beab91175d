// The top call over fakes, with ample memory: the text, the line and the status of each outcome.
use lie_app::{Source, Status, code, run};
use lie_keep::MemoryKeeper;
use lie_outer::{Bytes, MemoryFiles, MemoryLink, MemorySink, Text};
use lie_scan::fault::{BadFile, BadKind};
use lie_solved::NotKind;
use std::alloc::Global;
use std::process::Abort;
use std::test::Fail;

// One call, with one file and the numbers of the reads and puts that are to fail.
pub fn check(
    rt: &impl Abort,
    alloc: Global,
    words: &[&str],
    file: &[u8],
    (failing_reads, failing_puts): (&[u64], &[u64]),
    want: (&Status, &[u8], &[u8]),
) -> Result<(), Fail> {
    let mut owned = Vec::new(alloc);
    for word in words {
        owned.push(String::from_str(alloc, *word)?)?;
    }
    let name = Text::of(alloc, b"f")?.expect(rt, "ASCII");
    let content = vec![in alloc; (name, Bytes::of(alloc, file)?)]?;
    let mut files = MemoryFiles::new(content, failing_reads.to_vec(alloc)?);
    let mut out = MemorySink::new(Bytes::of(alloc, b"")?, failing_puts.to_vec(alloc)?);
    let mut err = MemorySink::new(Bytes::of(alloc, b"")?, Vec::new(alloc));
    let mut keeper = MemoryKeeper::new(Vec::new(alloc), Vec::new(alloc));
    let mut link = MemoryLink::new(Vec::new(alloc), Vec::new(alloc));
    let status = run(
        alloc,
        &owned,
        &mut files,
        &mut out,
        &mut err,
        &mut keeper,
        &mut link,
    );
    assert_eq!(rt; code(&status), code(want.0));
    assert_eq!(rt; out.taken(), want.1);
    assert_eq!(rt; err.taken(), want.2);
    Ok(())
}

// A call whose words are wrong.
pub fn is_usage(rt: &impl Abort, alloc: Global, words: &[&str]) -> Result<(), Fail> {
    let want = (&Status::Usage, b"".as_slice(), b"lie: usage\n".as_slice());
    check(rt, alloc, words, b"", (&[], &[]), want)
}

// A call whose words are right, of a file that is not there.
fn is_missing(rt: &impl Abort, alloc: Global, words: &[&str]) -> Result<(), Fail> {
    let want = (
        &Status::Missing,
        b"".as_slice(),
        b"lie: missing\n".as_slice(),
    );
    check(rt, alloc, words, b"", (&[], &[]), want)
}

#[test]
fn words_are_parted_at_the_dashes(rt: HostRuntime) -> Result<(), Fail> {
    let alloc = rt.alloc();
    is_usage(&rt, alloc, &[])?;
    is_usage(&rt, alloc, &["determine"])?;
    is_usage(&rt, alloc, &["fly", "g"])?;
    is_usage(&rt, alloc, &["determine", "-g"])?;
    is_usage(&rt, alloc, &["determine", "g", "h"])?;
    is_usage(&rt, alloc, &["determine", "--", "g", "--"])?;
    is_usage(&rt, alloc, &["check", "g"])?;
    is_usage(&rt, alloc, &["check", "g", "-d_x"])?;
    is_usage(&rt, alloc, &["check", "g", "d_x", "0"])?;
    is_missing(&rt, alloc, &["determine", "g"])?;
    is_missing(&rt, alloc, &["determine", "--", "-g"])?;
    is_missing(&rt, alloc, &["determine", "g", "--"])?;
    is_missing(&rt, alloc, &["determine", "-"])?;
    is_missing(&rt, alloc, &["check", "g", "d_x"])?;
    is_missing(&rt, alloc, &["check", "g", "--", "-d_x"])?;
    is_missing(&rt, alloc, &["check", "--", "g", "-d_x"])?;
    is_missing(&rt, alloc, &["check", "g", "d_x", "--"])
}

// A file with a fault.
fn is_bad(
    rt: &impl Abort,
    alloc: Global,
    file: &[u8],
    (line, column, kind): (u32, u32, BadKind),
    text: &[u8],
) -> Result<(), Fail> {
    let status = Status::Bad(Source::File, BadFile { line, column, kind });
    let want = (&status, b"".as_slice(), text);
    check(rt, alloc, &["determine", "f"], file, (&[], &[]), want)?;
    check(rt, alloc, &["check", "f", "?"], file, (&[], &[]), want)
}

#[test]
fn faults_of_files_are_told(rt: HostRuntime) -> Result<(), Fail> {
    let alloc = rt.alloc();
    let kind = (1, 1, BadKind::Header);
    is_bad(&rt, alloc, b"", kind, b"lie: file: Header at 1:1\n")?;
    let file = b"lie 1\nvars x\ndeps u\neq u_";
    let kind = (4, 6, BadKind::Syntax);
    is_bad(&rt, alloc, file, kind, b"lie: file: Syntax at 4:6\n")?;
    let file = b"lie 1\nvars x\ndeps u\neq u_x = w\nend\n";
    let kind = (4, 10, BadKind::UnknownName);
    is_bad(&rt, alloc, file, kind, b"lie: file: UnknownName at 4:10\n")?;
    let mut long = Vec::new(alloc);
    for _ in 0..65_537 {
        long.push(b'\n')?;
    }
    let kind = (1, 1, BadKind::TooLong);
    is_bad(&rt, alloc, &long, kind, b"lie: file: TooLong at 1:1\n")
}

// A file of a system without solved form.
fn is_not_solved(
    rt: &impl Abort,
    alloc: Global,
    file: &[u8],
    kind: NotKind,
    equation: u32,
    text: &[u8],
) -> Result<(), Fail> {
    let status = Status::Not(kind, equation);
    let want = (&status, b"".as_slice(), text);
    check(rt, alloc, &["determine", "f"], file, (&[], &[]), want)?;
    check(rt, alloc, &["check", "f", "?"], file, (&[], &[]), want)
}

#[test]
fn systems_without_solved_form_are_told(rt: HostRuntime) -> Result<(), Fail> {
    let alloc = rt.alloc();
    let file = b"lie 1\nvars x\ndeps u\neq u = x\nend\n";
    let text = b"lie: not solved: NoDerivative in equation 1\n";
    is_not_solved(&rt, alloc, file, NotKind::NoDerivative, 1, text)?;
    let file = b"lie 1\nvars x\ndeps u\neq u_x^2 = u\nend\n";
    let text = b"lie: not solved: LeadNotLinear in equation 1\n";
    is_not_solved(&rt, alloc, file, NotKind::LeadNotLinear, 1, text)?;
    let file = b"lie 1\nvars x\ndeps u\neq u_x = 0\neq u_x = u\nend\n";
    let text = b"lie: not solved: LeadRepeated in equation 2\n";
    is_not_solved(&rt, alloc, file, NotKind::LeadRepeated, 2, text)?;
    let file = b"lie 1\nvars x y\ndeps u v\neq u_x = -v_y\neq v_x = u_x\nend\n";
    let text = b"lie: not solved: LeadInside in equation 2\n";
    is_not_solved(&rt, alloc, file, NotKind::LeadInside, 2, text)
}

#[test]
fn fault_of_reading_is_told(rt: HostRuntime) -> Result<(), Fail> {
    let want = (
        &Status::ReadFault,
        b"".as_slice(),
        b"lie: read fault\n".as_slice(),
    );
    check(&rt, rt.alloc(), &["determine", "f"], b"", (&[1], &[]), want)
}
