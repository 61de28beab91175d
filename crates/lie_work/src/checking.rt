// The command `check`.
ghost use Rattle.std.specs.Prelude.{◌≡◌, List, ℕ, IfOk, IfErr};
ghost use Rattle.lie_system.specs.KeptSystems.{system_read};
ghost use Rattle.lie_geometry.specs.Invariance.{IsFieldOn};
ghost use Rattle.lie_solved.specs.SolvedForms.{solved_equations};
ghost use Rattle.lie_work.specs.declared.outcome.Outcome.{Outcome as AnOutcome};
ghost use Rattle.lie_work.specs.Checking.{IsField, HasOneField, IsCheck, IsCheckRefusal, IsCheckDue, verdict_line};
ghost use Rattle.lie_work.specs.Outcomes.{IsRefusalOr};
ghost use Rattle.lie_work.specs.SolvedFile.{IsSolvedFile};
ghost use Rattle.lie_work.specs.Work.{IsMade};

use crate::causes::{not_done, not_read};
use crate::outcome::NoText;
use crate::source::Source;
use lie_bytes::NoMemory;
use lie_check::{Verdict, check};
use lie_fieldtext::read_field;
use lie_jet::{Field, Space};
use lie_report::{no_line, yes_line};
use lie_solved::Solved;
use std::alloc::Global;

// The line of a verdict.
fn verdict_line(
    alloc: Global,
    space: Space,
    names: &[u8],
    verdict: &Verdict,
) -> Result<Vec<u8>, NoMemory>
    ensures { IfOk result (λ text. text.items ≡ verdict_line space names.now verdict.now) }
{
    match verdict {
        Verdict::Yes => yes_line(alloc),
        Verdict::No {
            equation,
            remainder,
        } => no_line(alloc, space, names, *equation, remainder),
    }
}

// The line of the check of a field with a solved system.
fn line_of(alloc: Global, solved: &Solved, field: &Field) -> Result<Vec<u8>, NoText>
    requires { IsFieldOn solved.now.system.space field.now }
    ensures text { IfOk result (λ text. (bytes field_text : List ℕ)
        → IsSolvedFile bytes (system_read solved.now.system) (solved_equations solved.now.system.space solved.now.rules.items)
        → IsField (system_read solved.now.system) field_text field.now → IsCheck bytes field_text text.items) }
    ensures cause { IfErr result (λ none. (bytes field_text : List ℕ)
        → IsSolvedFile bytes (system_read solved.now.system) (solved_equations solved.now.system.space solved.now.rules.items)
        → IsField (system_read solved.now.system) field_text field.now → IsRefusalOr (IsCheckRefusal bytes field_text) none) }
    ensures due { (bytes field_text : List ℕ) (due : AnOutcome)
        → IsSolvedFile bytes (system_read solved.now.system) (solved_equations solved.now.system.space solved.now.rules.items)
        → IsField (system_read solved.now.system) field_text field.now → HasOneField (system_read solved.now.system) field_text
        → IsCheckDue bytes field_text due → IsMade due result }
{
    match check(alloc, solved, field) {
        Ok(verdict) => Ok(verdict_line(
            alloc,
            solved.system.space,
            solved.system.names.bytes(),
            &verdict,
        )?),
        Err(fail) => Err(not_done(0, fail)),
    }
}

/// The line of the check of the field that a text spells.
pub fn check_of(alloc: Global, solved: &Solved, text: &[u8]) -> Result<Vec<u8>, NoText>
    ensures text { IfOk result (λ line. (bytes : List ℕ)
        → IsSolvedFile bytes (system_read solved.now.system) (solved_equations solved.now.system.space solved.now.rules.items)
        → IsCheck bytes text.now line.items) }
    ensures cause { IfErr result (λ none. (bytes : List ℕ)
        → IsSolvedFile bytes (system_read solved.now.system) (solved_equations solved.now.system.space solved.now.rules.items)
        → IsRefusalOr (IsCheckRefusal bytes text.now) none) }
    ensures due { (bytes : List ℕ) (due : AnOutcome)
        → IsSolvedFile bytes (system_read solved.now.system) (solved_equations solved.now.system.space solved.now.rules.items)
        → IsCheckDue bytes text.now due → IsMade due result }
{
    match read_field(alloc, text, &solved.system) {
        Ok(field) => line_of(alloc, solved, &field),
        Err(fail) => Err(not_read(Source::Field, fail)),
    }
}
