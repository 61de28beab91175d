// Runs whose states are known: those of the determining systems of some equations, and of small systems.
ghost use Rattle.std.specs.Prelude.{◌<◌};

use crate::run_texts::{DETERMINING, SMALL};
use lie_bytes::NoMemory;
use lie_linear_texts::{SystemTexts, is_same, of_texts, system, unknown_of};
use lie_solve::{RuleName, Stop, next_step, run_steps};
use std::alloc::Global;
use std::test::Fail;

/// The name of a rule.
fn name_of(rule: RuleName) -> &'static [u8] {
    match rule {
        RuleName::Zero => b"Zero",
        RuleName::Lowest => b"Lowest",
        RuleName::Absent => b"Absent",
        RuleName::Split => b"Split",
        RuleName::Substitute => b"Substitute",
        RuleName::Integrate => b"Integrate",
        RuleName::Isolate => b"Isolate",
        RuleName::Reduce => b"Reduce",
        RuleName::Foreign => b"Foreign",
        RuleName::Cross => b"Cross",
    }
}

/// The first word of a line, a rule or the names of variables, and the texts of its state.
pub fn fields<'a>(line: &'a [u8]) -> Option<(&'a [u8], SystemTexts<'a>)> {
    let mut fields = line.split(|b| *b == b'|');
    let word = fields.next()?;
    let unknowns = fields.next()?;
    let equations = fields.next()?;
    let general = fields.next()?;
    let next = unknown_of(fields.next()?);
    Some((word, of_texts(unknowns, equations, general, next)))
}

/// Whether the steps of a run make its states, each by its rule, and no rule applies to the last one.
fn is_run(alloc: Global, run: &[u8]) -> Result<bool, NoMemory> {
    let mut lines = run.split(|b| *b == b'\n');
    let opening = lines.next().ok_or(NoMemory)?;
    let (names, texts) = fields(opening).ok_or(NoMemory)?;
    let mut found = system(alloc, names, &texts)?;
    for line in lines {
        let (name, texts) = fields(line).ok_or(NoMemory)?;
        let rule = next_step(&mut found, alloc).map_err(|_| NoMemory)?;
        let wanted = system(alloc, names, &texts)?;
        if rule.map(name_of) != Some(name) || !is_same(alloc, &found, &wanted)? {
            return Ok(false);
        }
    }
    let rule = next_step(&mut found, alloc).map_err(|_| NoMemory)?;
    Ok(rule.is_none())
}

#[test]
fn steps_make_the_states_of_runs(rt: HostRuntime) -> Result<(), Fail> {
    let alloc = rt.alloc();
    for run in DETERMINING {
        assert!(rt; is_run(alloc, run).map_err(|_| "memory")?);
    }
    for run in SMALL {
        assert!(rt; is_run(alloc, run).map_err(|_| "memory")?);
    }
    Ok(())
}

/// Whether a run ends after so many steps with the state of these texts, or its budget of so many is spent with it.
fn leaves(
    alloc: Global,
    opening: &[u8],
    budget: u64,
    is_last: bool,
    line: &[u8],
) -> Result<bool, NoMemory>
    requires { budget < 100 }
{
    let (names, texts) = fields(opening).ok_or(NoMemory)?;
    let (left, has_ended) = match run_steps(system(alloc, names, &texts)?, alloc, budget) {
        Ok((left, steps)) => (left, steps == budget),
        Err(Stop::Spent { system }) => (system, false),
        Err(_) => return Err(NoMemory),
    };
    let (_, texts) = fields(line).ok_or(NoMemory)?;
    let wanted = system(alloc, names, &texts)?;
    Ok(has_ended == is_last && is_same(alloc, &left, &wanted)?)
}

/// Whether each budget of fewer steps than a run has is spent with the state of its number, and that of all steps ends with the last.
fn budgets_leave_states(alloc: Global, run: &[u8]) -> Result<bool, NoMemory> {
    let mut lines = run.split(|b| *b == b'\n');
    let opening = lines.next().ok_or(NoMemory)?;
    let mut line = opening;
    let mut budget = 0;
    for next in lines {
        if budget >= 99 || !leaves(alloc, opening, budget, false, line)? {
            return Ok(false);
        }
        line = next;
        budget += 1;
    }
    Ok(budget < 100 && leaves(alloc, opening, budget, true, line)?)
}

#[test]
fn budgets_leave_the_states_of_runs(rt: HostRuntime) -> Result<(), Fail> {
    let alloc = rt.alloc();
    for run in DETERMINING {
        assert!(rt; budgets_leave_states(alloc, run).map_err(|_| "memory")?);
    }
    for run in SMALL {
        assert!(rt; budgets_leave_states(alloc, run).map_err(|_| "memory")?);
    }
    Ok(())
}
