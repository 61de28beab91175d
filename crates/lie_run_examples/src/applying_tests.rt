// Where each rule applies, told without its step.
ghost use Rattle.std.specs.Prelude.{◌<◌};

use crate::run_tests::fields;
use lie_bytes::NoMemory;
use lie_cross::{cross_applies, foreign_applies, isolate_applies, reduce_applies};
use lie_lin::LinSystem;
use lie_linear_texts::system;
use lie_ring::PolyFail;
use lie_rules::{
    absent_applies, integrate_applies, lowest_applies, split_applies, substitute_applies,
    zero_applies,
};
use lie_solve::RuleName;
use std::alloc::Global;
use std::test::Fail;

/// Whether a rule applies at the first or the second equation, or where it looks at two, at it and the next one.
fn applies(
    system: &LinSystem,
    alloc: Global,
    rule: RuleName,
    place: usize,
) -> Result<bool, PolyFail>
    requires { place < 2 }
{
    let count = system.equations().len();
    match rule {
        _ if count < 2 => Ok(false),
        RuleName::Zero => Ok(zero_applies(system, place)),
        RuleName::Lowest => Ok(lowest_applies(system, alloc, place)?),
        RuleName::Absent => Ok(absent_applies(system, place)),
        RuleName::Split => Ok(split_applies(system, alloc, place)?),
        RuleName::Substitute => Ok(substitute_applies(system, alloc, place)?),
        RuleName::Integrate => Ok(integrate_applies(system, alloc, place)?),
        RuleName::Isolate => isolate_applies(system, alloc, place),
        RuleName::Reduce => Ok(reduce_applies(system, place)),
        RuleName::Foreign => foreign_applies(system, alloc, place),
        RuleName::Cross if count == 2 => Ok(false),
        RuleName::Cross => cross_applies(system, alloc, place, place + 1),
    }
}

/// Where a rule applies, of the first two places of the system in a line.
fn answers(alloc: Global, rule: RuleName, line: &[u8]) -> Result<[bool; 2], NoMemory> {
    let (names, texts) = fields(line).ok_or(NoMemory)?;
    let system = system(alloc, names, &texts)?;
    Ok([
        applies(&system, alloc, rule, 0).map_err(|_| NoMemory)?,
        applies(&system, alloc, rule, 1).map_err(|_| NoMemory)?,
    ])
}

#[test]
fn each_rule_applies_at_one_place(rt: HostRuntime) -> Result<(), Fail> {
    let alloc = rt.alloc();
    let rows: [(RuleName, &[u8], bool); 10] = [
        (RuleName::Zero, b"xu|1xu 2xu|f1;f2_x|f1;f2|3", true),
        (
            RuleName::Lowest,
            b"xu|1xu 2xu|f1_x 2*f1;f2_xx -f2_u|f1;f2|3",
            true,
        ),
        (RuleName::Absent, b"xu|1xu 2xu|f2;f1_xu|f1;f2|3", false),
        (
            RuleName::Split,
            b"xu|1x 2xu|f1_x u*f1;f2_x u*f2|f1;f2|3",
            true,
        ),
        (
            RuleName::Substitute,
            b"xu|1xu 2x 3u|x*f2 -2*f1;3*f3 -f2|f1;f2|4",
            true,
        ),
        (
            RuleName::Integrate,
            b"xu|1xu 2x 3x|f1_u f2;f2_x f3|f1;f2|4",
            true,
        ),
        (
            RuleName::Isolate,
            b"xu|1x 2xu|f2 -u*f1;f2_x f2_u|f1;f2|3",
            true,
        ),
        (
            RuleName::Reduce,
            b"xu|1xu 2xu|f1_x f1_u;f1_xu f2|f1;f2|3",
            false,
        ),
        (
            RuleName::Foreign,
            b"xtu|1xt 2xtu|f1_x f2;f2_x f2_u|f1;f2;|3",
            true,
        ),
        (
            RuleName::Cross,
            b"xtu|1xtu 2xtu|f1_t f2;f1_x u*f1_u;f2_x f2_u|f1;f2;|3",
            true,
        ),
    ];
    for (rule, line, is_first) in rows {
        let found = answers(alloc, rule, line).map_err(|_| "memory")?;
        assert_eq!(rt; found, [is_first, !is_first]);
    }
    Ok(())
}
