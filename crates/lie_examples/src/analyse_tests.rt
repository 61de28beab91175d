// The command `analyse`: reports of symmetries, budgets that are spent, and limits, from a model that was written apart.
use crate::outcome_tests::is_usage;
use crate::path_tests::{puts, tells};
use crate::{example_files as examples, symmetries_reports as reports};
use lie_app::Status;
use lie_ring::PastKind;
use std::test::Fail;

const CONSTANT: &[u8] = b"lie 1\nvars x\ndeps u\neq u_x = 0\nend\n";

const STILL: &[u8] = b"lie 1\nvars x t\ndeps u\neq u_t = 0\nend\n";

#[test]
fn symmetries_are_told(rt: HostRuntime) -> Result<(), Fail> {
    let rows: [(&[u8], &[u8]); 7] = [
        (CONSTANT, reports::CONSTANT),
        (STILL, reports::STILL),
        (examples::LINE, reports::LINE),
        (examples::PAINLEVE, reports::PAINLEVE),
        (examples::HEAT, reports::HEAT),
        (examples::BURGERS, reports::BURGERS),
        (examples::KORTEWEG_DE_VRIES, reports::KORTEWEG_DE_VRIES),
    ];
    for (file, report) in rows {
        puts(&rt, rt.alloc(), &["analyse", "f"], file, report)?;
    }
    Ok(())
}

#[test]
fn budget_may_stand_anywhere_and_changes_no_report(rt: HostRuntime) -> Result<(), Fail> {
    let alloc = rt.alloc();
    let rows: [&[&str]; 5] = [
        &["analyse", "f", "--steps", "1"],
        &["analyse", "--steps", "5", "f"],
        &["analyse", "f", "--steps=5"],
        &["analyse", "f", "--steps", "00000001"],
        &["analyse", "--steps", "10000000", "--", "f"],
    ];
    for words in rows {
        puts(&rt, alloc, words, CONSTANT, reports::CONSTANT)?;
    }
    puts(
        &rt,
        alloc,
        &["analyse", "f", "--steps", "2"],
        STILL,
        reports::STILL,
    )?;
    let words: &[&str] = &["analyse", "f", "--steps", "13"];
    puts(&rt, alloc, words, examples::LINE, reports::LINE)?;
    let words: &[&str] = &["analyse", "f", "--steps", "11"];
    puts(&rt, alloc, words, examples::HEAT, reports::HEAT)
}

#[test]
fn spent_budgets_are_told(rt: HostRuntime) -> Result<(), Fail> {
    let rows: [(&[u8], &str, u64, &[u8]); 4] = [
        (STILL, "1", 1, b"lie: spent 1 steps\n"),
        (examples::LINE, "11", 11, b"lie: spent 11 steps\n"),
        (examples::HEAT, "10", 10, b"lie: spent 10 steps\n"),
        (examples::KORTEWEG_DE_VRIES, "3", 3, b"lie: spent 3 steps\n"),
    ];
    for (file, text, steps, line) in rows {
        let status = Status::Spent { steps };
        let words: &[&str] = &["analyse", "f", "--steps", text];
        tells(&rt, rt.alloc(), words, file, status, line)?;
    }
    Ok(())
}

#[test]
fn budget_has_bounds(rt: HostRuntime) -> Result<(), Fail> {
    let alloc = rt.alloc();
    is_usage(&rt, alloc, &["analyse"])?;
    is_usage(&rt, alloc, &["analyse", "f", "--steps"])?;
    for steps in ["0", "10000001", "000000001", "+5", "-5", ""] {
        is_usage(&rt, alloc, &["analyse", "f", "--steps", steps])?;
    }
    is_usage(
        &rt,
        alloc,
        &["analyse", "f", "--steps", "1", "--steps", "1"],
    )
}

// Equations whose numbers pass the limit on coefficients in the determining equations, and in steps of the run.
const OPENING: &[u8] = b"lie 1\nvars x\ndeps y\neq 9223372036854775808*y_xx = y_x^2\nend\n";

const SECOND: &[u8] =
    b"lie 1\nvars x\ndeps y\neq y_xx = 28356863910078205288614550619314017622*y^2 + x\nend\n";

const ELEVENTH: &[u8] = b"lie 1\nvars x t\ndeps u\n\
    eq u_t + 18904575940052136859076367079542678415*u*u_x + u_xxx = 0\nend\n";

#[test]
fn step_past_a_limit_is_told(rt: HostRuntime) -> Result<(), Fail> {
    let rows: [(&[u8], u64, &[u8]); 3] = [
        (OPENING, 0, b"lie: past Coefficient at step 0\n"),
        (SECOND, 2, b"lie: past Coefficient at step 2\n"),
        (ELEVENTH, 11, b"lie: past Coefficient at step 11\n"),
    ];
    for (file, step, line) in rows {
        let past = Status::Past {
            step,
            what: PastKind::Coefficient,
        };
        tells(&rt, rt.alloc(), &["analyse", "f"], file, past, line)?;
    }
    Ok(())
}
