// The command `sample`: lines, budgets, faults and words, from a model that was written apart.
use crate::outcome_tests::{check, is_usage};
use crate::path_tests::{puts, tells};
use lie_app::Status;
use std::alloc::Global;
use std::test::Fail;

const TO_TWO: &[u8] = b"2: unknowns 0, remaining 0, generators 0\n";

const TO_FOUR: &[u8] = b"2: unknowns 0, remaining 0, generators 0\n\
    3: unknowns 0, remaining 0, generators 0\n4: unknowns 0, remaining 0, generators 0\n";

// The lines of all members: none has a symmetry.
fn lines_of_all(alloc: Global) -> Result<Vec<u8>, Fail> {
    let mut text = Vec::new(alloc);
    for member in 2..33 {
        let line = format!(in alloc; "{member}: unknowns 0, remaining 0, generators 0\n")?;
        text.extend_from_slice(line.as_bytes())?;
    }
    Ok(text)
}

#[test]
fn numbers_of_members_are_put(rt: HostRuntime) -> Result<(), Fail> {
    let alloc = rt.alloc();
    puts(&rt, alloc, &["sample", "4"], b"", TO_FOUR)?;
    puts(&rt, alloc, &["sample", "02"], b"", TO_TWO)?;
    let words: &[&str] = &["sample", "--steps=11", "--", "2"];
    puts(&rt, alloc, words, b"", TO_TWO)?;
    let all = lines_of_all(alloc)?;
    puts(&rt, alloc, &["sample", "32"], b"", &all)?;
    puts(&rt, alloc, &["sample", "32"], b"", &all)
}

#[test]
fn first_refusal_and_first_fault_end_a_sample(rt: HostRuntime) -> Result<(), Fail> {
    let alloc = rt.alloc();
    let words: &[&str] = &["sample", "6", "--steps", "10"];
    let spent = Status::Spent { steps: 10 };
    tells(&rt, alloc, words, b"", spent, b"lie: spent 10 steps\n")?;
    let line = b"lie: write fault\n".as_slice();
    let want = (&Status::WriteFault, TO_TWO, line);
    check(&rt, alloc, &["sample", "4"], b"", (&[], &[2]), want)
}

#[test]
fn member_is_a_number_from_two_to_thirty_two(rt: HostRuntime) -> Result<(), Fail> {
    let alloc = rt.alloc();
    is_usage(&rt, alloc, &["sample"])?;
    for last in ["1", "33", "002", "+2", "-2", "", "x"] {
        is_usage(&rt, alloc, &["sample", last])?;
    }
    is_usage(&rt, alloc, &["sample", "2", "3"])?;
    is_usage(&rt, alloc, &["sample", "2", "--steps", "0"])
}
