// The command `degree`: reports of bases, the degrees that may be asked for, and limits, from a model that was written apart.
use crate::outcome_tests::is_usage;
use crate::path_tests::{puts, tells};
use crate::{degree_reports as reports, example_files as examples};
use lie_app::{Source, Status};
use lie_ring::PastKind;
use lie_scan::fault::{BadFile, BadKind};
use lie_solved::NotKind;
use std::test::Fail;

// A factor that is the greatest for which the basis up to degree 2 is made within the limit on coefficients, and the next one; and one
// for which the determining equations are not.
const STEEP: &[u8] = b"lie 1\nvars x t\ndeps u\neq u_t = u_xx + 6521908912666391106*u*u_x\nend\n";

const TOO_STEEP: &[u8] =
    b"lie 1\nvars x t\ndeps u\neq u_t = u_xx + 6521908912666391107*u*u_x\nend\n";

const STEEPEST: &[u8] =
    b"lie 1\nvars x t\ndeps u\neq u_t = u_xx + 12345678901234567891*u*u_x\nend\n";

#[test]
fn bases_up_to_a_degree_are_told(rt: HostRuntime) -> Result<(), Fail> {
    let rows: [(&[u8], &str, &[u8]); 8] = [
        (examples::GROWTH, "0", reports::GROWTH_TO_ZERO),
        (examples::GROWTH, "1", reports::GROWTH_TO_ONE),
        (examples::PAINLEVE, "2", reports::PAINLEVE),
        (examples::LAPLACE, "1", reports::LAPLACE),
        (examples::HEAT, "2", reports::HEAT_TO_TWO),
        (examples::HEAT, "3", reports::HEAT_TO_THREE),
        (examples::WAVE, "2", reports::WAVE),
        (STEEP, "2", reports::STEEP),
    ];
    for (file, degree, report) in rows {
        puts(&rt, rt.alloc(), &["degree", "f", degree], file, report)?;
    }
    Ok(())
}

#[test]
fn limit_of_a_basis_is_told(rt: HostRuntime) -> Result<(), Fail> {
    let rows: [(&[u8], &str, u64, PastKind, &[u8]); 3] = [
        (
            examples::WAVE,
            "7",
            1,
            PastKind::Width,
            b"lie: past Width at step 1\n",
        ),
        (
            TOO_STEEP,
            "2",
            1,
            PastKind::Coefficient,
            b"lie: past Coefficient at step 1\n",
        ),
        (
            STEEPEST,
            "2",
            0,
            PastKind::Coefficient,
            b"lie: past Coefficient at step 0\n",
        ),
    ];
    for (file, degree, step, what, line) in rows {
        let past = Status::Past { step, what };
        tells(&rt, rt.alloc(), &["degree", "f", degree], file, past, line)?;
    }
    Ok(())
}

#[test]
fn degree_is_a_digit_up_to_eight(rt: HostRuntime) -> Result<(), Fail> {
    let alloc = rt.alloc();
    is_usage(&rt, alloc, &["degree"])?;
    is_usage(&rt, alloc, &["degree", "f"])?;
    for degree in ["9", "10", "00", "+1", "-1", "", "x"] {
        is_usage(&rt, alloc, &["degree", "f", degree])?;
    }
    is_usage(&rt, alloc, &["degree", "f", "--", "-1"])?;
    is_usage(&rt, alloc, &["degree", "f", "1", "2"])?;
    is_usage(&rt, alloc, &["degree", "f", "1", "--steps", "5"])?;
    let words: &[&str] = &["degree", "--", "f", "0"];
    puts(&rt, alloc, words, examples::GROWTH, reports::GROWTH_TO_ZERO)
}

#[test]
fn file_is_judged_before_the_basis(rt: HostRuntime) -> Result<(), Fail> {
    let alloc = rt.alloc();
    let words: &[&str] = &["degree", "f", "8"];
    let place = BadFile {
        line: 4,
        column: 6,
        kind: BadKind::Syntax,
    };
    let bad = Status::Bad(Source::File, place);
    let file = b"lie 1\nvars x\ndeps u\neq u_";
    tells(&rt, alloc, words, file, bad, b"lie: file: Syntax at 4:6\n")?;
    let not = Status::Not(NotKind::LeadInside, 2);
    let file = b"lie 1\nvars x y\ndeps u v\neq u_x = -v_y\neq v_x = u_x\nend\n";
    let line = b"lie: not solved: LeadInside in equation 2\n";
    tells(&rt, alloc, words, file, not, line)
}
