// The commands of the desk over a keeper in memory: what is put, what is told, and which studies are kept.
use lie_app::{code, run};
use lie_keep::MemoryKeeper;
use lie_outer::{Bytes, Keeper, MemoryFiles, MemoryLink, MemorySink, Text};
use std::alloc::Global;
use std::process::Abort;
use std::test::Fail;

const SLOPE: &[u8] = b"lie 1\nvars x\ndeps u\neq u_x = 0\nend\n";

const GROWTH: &[u8] = b"lie 1\nvars x\ndeps u\neq u_x = u\nend\n";

const STILL: &[u8] = b"lie 1\nvars x t\ndeps u\neq u_t = 0\nend\n";

const SLOPE_REPORT: &str =
    "lie symmetries 1, polynomial components only\nvars x\ndeps u\nfree f1(x,u)\nfree f2(u)\n\
    general x = f1\ngeneral u = f2\nremaining 0\ngenerators -\ncommutators -\nend\n";

const GROWTH_REPORT: &str =
    "lie symmetries 1, polynomial components only\nvars x\ndeps u\nfree f1(x,u)\nfree f2(x,u)\n\
    general x = f1\ngeneral u = f2\nremaining 1\nf2_x + u*f2_u - u*f1_x - u^2*f1_u - f2 = 0\n\
    generators -\ncommutators -\nend\n";

const STILL_REPORT: &str =
    "lie symmetries 1, polynomial components only\nvars x t\ndeps u\nfree f1(x,t,u)\n\
    free f2(x,u)\nfree f3(x,u)\ngeneral x = f2\ngeneral t = f1\ngeneral u = f3\nremaining 0\n\
    generators -\ncommutators -\nend\n";

fn file(rt: &impl Abort, alloc: Global, name: &str, bytes: &[u8]) -> Result<(Text, Bytes), Fail> {
    let name = Text::of(alloc, name.as_bytes())?.expect(rt, "ASCII");
    Ok((name, Bytes::of(alloc, bytes)?))
}

// One call over the keeper, where these puts fail: its exit code, and what was put.
fn call<K: Keeper>(
    rt: &impl Abort,
    alloc: Global,
    words: &[&str],
    failing_puts: &[u64],
    keeper: &mut K,
) -> Result<(u8, String), Fail> {
    let mut owned = Vec::new(alloc);
    for word in words {
        owned.push(String::from_str(alloc, *word)?)?;
    }
    let slope = file(rt, alloc, "Z", SLOPE)?;
    let growth = file(rt, alloc, "G", GROWTH)?;
    let still = file(rt, alloc, "N", STILL)?;
    let mut files = MemoryFiles::new(vec![in alloc; slope, growth, still]?, Vec::new(alloc));
    let mut out = MemorySink::new(Bytes::of(alloc, b"")?, failing_puts.to_vec(alloc)?);
    let mut err = MemorySink::new(Bytes::of(alloc, b"")?, Vec::new(alloc));
    let mut link = MemoryLink::new(Vec::new(alloc), Vec::new(alloc));
    let status = run(
        alloc, &owned, &mut files, &mut out, &mut err, keeper, &mut link,
    );
    let mut text = String::new(alloc);
    for byte in out.taken().iter().chain(err.taken().iter()) {
        text.push(char::from(*byte))?;
    }
    Ok((code(&status), text))
}

// A call that ends so, with this on one of the two streams.
fn ends<K: Keeper>(
    rt: &impl Abort,
    alloc: Global,
    keeper: &mut K,
    words: &[&str],
    number: u8,
    text: &str,
) -> Result<(), Fail> {
    let (found, put) = call(rt, alloc, words, &[], keeper)?;
    assert_eq!(rt; put.as_str(), text);
    assert_eq!(rt; found, number);
    Ok(())
}

#[test]
fn studies_are_kept_by_name(rt: HostRuntime) -> Result<(), Fail> {
    let alloc = rt.alloc();
    let mut keeper = MemoryKeeper::new(Vec::new(alloc), Vec::new(alloc));
    let rows: [(&[&str], u8, &str); 18] = [
        (&["list"], 0, ""),
        (&["show", "a"], 12, "lie: missing\n"),
        (&["drop", "a"], 12, "lie: missing\n"),
        (&["study", "a", "nothere"], 12, "lie: missing\n"),
        (&["study", "a", "Z"], 0, SLOPE_REPORT),
        (&["study", "a", "Z"], 0, SLOPE_REPORT),
        (&["study", "a", "--steps", "1", "Z"], 0, SLOPE_REPORT),
        (&["study", "a", "G"], 13, "lie: taken\n"),
        (
            &["study", "b", "--steps", "1", "N"],
            6,
            "lie: spent 1 steps\n",
        ),
        (&["list"], 0, "a\n"),
        (&["study", "b", "N"], 0, STILL_REPORT),
        (&["list"], 0, "a\nb\n"),
        (&["show", "a"], 0, SLOPE_REPORT),
        (&["drop", "a"], 0, "dropped a\n"),
        (&["show", "a"], 12, "lie: missing\n"),
        (&["study", "a", "G"], 0, GROWTH_REPORT),
        (&["list"], 0, "b\na\n"),
        (&["show", "a"], 0, GROWTH_REPORT),
    ];
    for (words, number, text) in rows {
        ends(&rt, alloc, &mut keeper, words, number, text)?;
    }
    assert_eq!(rt; keeper.faults(), 0);
    Ok(())
}

#[test]
fn words_of_the_desk_name_studies(rt: HostRuntime) -> Result<(), Fail> {
    let alloc = rt.alloc();
    let mut keeper = MemoryKeeper::new(Vec::new(alloc), Vec::new(alloc));
    let rows: [&[&str]; 10] = [
        &["study", "A", "Z"],
        &["study", "a"],
        &["study", "", "Z"],
        &["study", "a", "Z", "--steps", "0"],
        &["study", "a", "Z", "G"],
        &["list", "a"],
        &["show"],
        &["show", "a_b"],
        &["show", "abcdefghijklmnopqrstuvwxyz-012345"],
        &["drop", "a", "b"],
    ];
    for words in rows {
        ends(&rt, alloc, &mut keeper, words, 2, "lie: usage\n")?;
    }
    let longest: &[&str] = &["drop", "abcdefghijklmnopqrstuvwxyz-01234"];
    ends(&rt, alloc, &mut keeper, longest, 12, "lie: missing\n")
}

#[test]
fn a_keeper_that_fails_leaves_no_row(rt: HostRuntime) -> Result<(), Fail> {
    let alloc = rt.alloc();
    for number in [1, 2] {
        let mut keeper = MemoryKeeper::new(Vec::new(alloc), vec![in alloc; number]?);
        let study: &[&str] = &["study", "a", "Z"];
        ends(&rt, alloc, &mut keeper, study, 10, "lie: keeper fault\n")?;
        assert_eq!(rt; keeper.faults(), 1);
        ends(&rt, alloc, &mut keeper, &["list"], 0, "")?;
        ends(&rt, alloc, &mut keeper, study, 0, SLOPE_REPORT)?;
        assert_eq!(rt; keeper.faults(), 1);
    }
    Ok(())
}

#[test]
fn an_output_that_fails_has_kept_or_dropped_its_row(rt: HostRuntime) -> Result<(), Fail> {
    let alloc = rt.alloc();
    let mut keeper = MemoryKeeper::new(Vec::new(alloc), Vec::new(alloc));
    let (found, _) = call(&rt, alloc, &["study", "a", "Z"], &[1], &mut keeper)?;
    assert_eq!(rt; found, 9);
    ends(&rt, alloc, &mut keeper, &["list"], 0, "a\n")?;
    let (found, _) = call(&rt, alloc, &["drop", "a"], &[1], &mut keeper)?;
    assert_eq!(rt; found, 9);
    ends(&rt, alloc, &mut keeper, &["list"], 0, "")
}
