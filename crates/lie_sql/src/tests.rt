// Each call once with ample memory, over both keepers; failures that are planned; a file that is opened again, locked or broken.
use super::*;
use lie_keep::MemoryKeeper;
use lie_outer::{Keeper, KeeperFail, Name, PutFail, Row, Text};
use sqlite::Connection;
use std::alloc::Global;
use std::process::Abort;
use std::test::Fail;

fn name(rt: &impl Abort, alloc: Global, text: &str) -> Result<Name, Fail> {
    Ok(Name::read(alloc, text.as_bytes())?.expect(rt, "a name"))
}

fn push_text(text: &mut String, bytes: &[u8]) -> Result<(), Fail> {
    for byte in bytes {
        text.push(char::from(*byte))?;
    }
    Ok(())
}

// The names that a keeper lists, each with a blank.
fn listed<K: Keeper>(alloc: Global, keeper: &mut K, from: u32, n: u32) -> Result<String, Fail> {
    let mut text = String::new(alloc);
    match keeper.list(alloc, from, n) {
        Ok(names) => {
            for name in names.iter() {
                push_text(&mut text, name.bytes())?;
                text.push(' ')?;
            }
        }
        Err(KeeperFail::Failed) => text.push_str("failed")?,
        Err(KeeperFail::NoMemory) => text.push_str("no memory")?,
    }
    Ok(text)
}

// The text and the report of a row.
fn got<K: Keeper>(
    rt: &impl Abort,
    alloc: Global,
    keeper: &mut K,
    of: &str,
) -> Result<String, Fail> {
    let mut text = String::new(alloc);
    match keeper.get(alloc, &name(rt, alloc, of)?) {
        Ok(Some(row)) => {
            push_text(&mut text, row.text.bytes())?;
            text.push('|')?;
            push_text(&mut text, row.report.bytes())?;
        }
        Ok(None) => text.push_str("none")?,
        Err(KeeperFail::Failed) => text.push_str("failed")?,
        Err(KeeperFail::NoMemory) => text.push_str("no memory")?,
    }
    Ok(text)
}

fn put<K: Keeper>(
    rt: &impl Abort,
    alloc: Global,
    keeper: &mut K,
    of: &str,
) -> Result<Result<(), PutFail>, Fail> {
    let row = Row {
        name: name(rt, alloc, of)?,
        text: Text::of(alloc, b"lie 1\nend\n")?.expect(rt, "ASCII"),
        report: Text::of(alloc, b"a report\n")?.expect(rt, "ASCII"),
    };
    Ok(keeper.put(alloc, &row))
}

fn dropped<K: Keeper>(
    rt: &impl Abort,
    alloc: Global,
    keeper: &mut K,
    of: &str,
) -> Result<Result<bool, KeeperFail>, Fail> {
    Ok(keeper.drop_row(alloc, &name(rt, alloc, of)?))
}

// What every keeper does from no rows on.
fn keeps<K: Keeper>(rt: &impl Abort, alloc: Global, keeper: &mut K) -> Result<(), Fail> {
    assert_eq!(rt; listed(alloc, keeper, 0, 9)?.as_str(), "");
    assert_eq!(rt; got(rt, alloc, keeper, "a")?.as_str(), "none");
    for of in ["a", "b", "c-3"] {
        assert_eq!(rt; put(rt, alloc, keeper, of)?, Ok(()), "{of}");
    }
    assert_eq!(rt; put(rt, alloc, keeper, "b")?, Err(PutFail::Taken));
    assert_eq!(rt;
        got(rt, alloc, keeper, "b")?.as_str(),
        "lie 1\nend\n|a report\n"
    );
    for (from, n, want) in [
        (0, 2, "a b "),
        (1, 1, "b "),
        (1, 9, "b c-3 "),
        (3, 1, ""),
        (4_294_967_295, 4_294_967_295, ""),
        (0, 4_294_967_295, "a b c-3 "),
        (0, 0, ""),
    ] {
        assert_eq!(rt;
            listed(alloc, keeper, from, n)?.as_str(),
            want,
            "{from} {n}"
        );
    }
    assert_eq!(rt; dropped(rt, alloc, keeper, "a")?, Ok(true));
    assert_eq!(rt; dropped(rt, alloc, keeper, "a")?, Ok(false));
    assert_eq!(rt; put(rt, alloc, keeper, "a")?, Ok(()));
    assert_eq!(rt; listed(alloc, keeper, 0, 9)?.as_str(), "b c-3 a ");
    assert_eq!(rt; keeper.faults(), 0);
    Ok(())
}

#[test]
fn a_keeper_in_memory_keeps(rt: HostRuntime) -> Result<(), Fail> {
    let alloc = rt.alloc();
    let mut keeper = MemoryKeeper::new(Vec::new(alloc), Vec::new(alloc));
    keeps(&rt, alloc, &mut keeper)
}

#[test]
fn a_keeper_in_memory_fails_as_planned(rt: HostRuntime) -> Result<(), Fail> {
    let alloc = rt.alloc();
    let mut keeper = MemoryKeeper::new(Vec::new(alloc), vec![in alloc; 1, 3, 5, 7]?);
    assert_eq!(rt; put(&rt, alloc, &mut keeper, "a")?, Err(PutFail::Failed));
    assert_eq!(rt; put(&rt, alloc, &mut keeper, "a")?, Ok(()));
    assert_eq!(rt; got(&rt, alloc, &mut keeper, "a")?.as_str(), "failed");
    assert_eq!(rt; listed(alloc, &mut keeper, 0, 9)?.as_str(), "a ");
    assert_eq!(rt; listed(alloc, &mut keeper, 0, 9)?.as_str(), "failed");
    assert_eq!(rt; dropped(&rt, alloc, &mut keeper, "b")?, Ok(false));
    assert_eq!(rt;
        dropped(&rt, alloc, &mut keeper, "a")?,
        Err(KeeperFail::Failed)
    );
    assert_eq!(rt; keeper.faults(), 4);
    assert_eq!(rt; listed(alloc, &mut keeper, 0, 9)?.as_str(), "a ");
    Ok(())
}

// Removes the file and its log, where they are there.
fn remove(rt: &HostRuntime, alloc: Global, path: &str) -> Result<(), Fail> {
    let log = format!(in alloc; "{path}-wal")?;
    let _ = std::fs::remove_file(rt, path);
    let _ = std::fs::remove_file(rt, log.as_str());
    Ok(())
}

#[test]
fn a_keeper_over_a_file_keeps(rt: HostRuntime) -> Result<(), Fail> {
    let alloc = rt.alloc();
    remove(&rt, alloc, "keeps.db")?;
    let mut keeper = SqlKeeper::new(&rt, alloc, "keeps.db")?;
    keeps(&rt, alloc, &mut keeper)?;
    remove(&rt, alloc, "keeps.db")
}

#[test]
fn rows_outlive_their_keeper(rt: HostRuntime) -> Result<(), Fail> {
    let alloc = rt.alloc();
    remove(&rt, alloc, "again.db")?;
    let mut first = SqlKeeper::new(&rt, alloc, "again.db")?;
    assert_eq!(rt; put(&rt, alloc, &mut first, "a")?, Ok(()));
    assert_eq!(rt; put(&rt, alloc, &mut first, "b")?, Ok(()));
    drop(first);
    let mut second = SqlKeeper::new(&rt, alloc, "again.db")?;
    assert_eq!(rt; listed(alloc, &mut second, 0, 9)?.as_str(), "a b ");
    assert_eq!(rt;
        got(&rt, alloc, &mut second, "a")?.as_str(),
        "lie 1\nend\n|a report\n"
    );
    assert_eq!(rt; dropped(&rt, alloc, &mut second, "a")?, Ok(true));
    // Two keepers of one file take turns: it is open during a call alone.
    let mut third = SqlKeeper::new(&rt, alloc, "again.db")?;
    assert_eq!(rt; listed(alloc, &mut third, 0, 9)?.as_str(), "b ");
    assert_eq!(rt; put(&rt, alloc, &mut third, "a")?, Ok(()));
    assert_eq!(rt; listed(alloc, &mut second, 0, 9)?.as_str(), "b a ");
    remove(&rt, alloc, "again.db")
}

#[test]
fn a_locked_file_is_a_fault(rt: HostRuntime) -> Result<(), Fail> {
    let alloc = rt.alloc();
    remove(&rt, alloc, "locked.db")?;
    let mut keeper = SqlKeeper::new(&rt, alloc, "locked.db")?;
    assert_eq!(rt; put(&rt, alloc, &mut keeper, "a")?, Ok(()));
    let other = Connection::open(&rt, "locked.db").expect(&rt, "the file");
    assert_eq!(rt; put(&rt, alloc, &mut keeper, "b")?, Err(PutFail::Failed));
    assert_eq!(rt; listed(alloc, &mut keeper, 0, 9)?.as_str(), "failed");
    assert_eq!(rt; keeper.faults(), 2);
    drop(other);
    assert_eq!(rt; listed(alloc, &mut keeper, 0, 9)?.as_str(), "a ");
    assert_eq!(rt; keeper.faults(), 2);
    remove(&rt, alloc, "locked.db")
}

#[test]
fn a_file_that_is_no_database_is_a_fault(rt: HostRuntime) -> Result<(), Fail> {
    let alloc = rt.alloc();
    remove(&rt, alloc, "broken.db")?;
    std::fs::write(
        &rt,
        "broken.db",
        "This is no database, whatever its name says.",
    )?;
    let mut keeper = SqlKeeper::new(&rt, alloc, "broken.db")?;
    assert_eq!(rt; got(&rt, alloc, &mut keeper, "a")?.as_str(), "failed");
    assert_eq!(rt; put(&rt, alloc, &mut keeper, "a")?, Err(PutFail::Failed));
    assert_eq!(rt;
        dropped(&rt, alloc, &mut keeper, "a")?,
        Err(KeeperFail::Failed)
    );
    assert_eq!(rt; listed(alloc, &mut keeper, 0, 9)?.as_str(), "failed");
    assert_eq!(rt; keeper.faults(), 4);
    remove(&rt, alloc, "broken.db")?;
    assert_eq!(rt; put(&rt, alloc, &mut keeper, "a")?, Ok(()));
    assert_eq!(rt; keeper.faults(), 4);
    remove(&rt, alloc, "broken.db")
}

#[test]
fn a_path_that_cannot_be_opened_is_a_fault(rt: HostRuntime) -> Result<(), Fail> {
    let alloc = rt.alloc();
    for path in ["", ".", "no such folder/lie.db", ":memory:"] {
        let mut keeper = SqlKeeper::new(&rt, alloc, path)?;
        assert_eq!(rt;
            listed(alloc, &mut keeper, 0, 9)?.as_str(),
            "failed",
            "{path}"
        );
        assert_eq!(rt; keeper.faults(), 1, "{path}");
    }
    Ok(())
}
