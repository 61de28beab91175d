// The equations of a file.
ghost use Rattle.std.specs.Prelude.{◌≡◌, ◌+◌, ◌≤◌, length, map, option_map, [], IfOk, IfSome};
ghost use Rattle.std.specs.List.{AllByRecursion as Every};
ghost use Rattle.lie_scan.specs.Stops.{Reads};
ghost use Rattle.lie_file.specs.FileLines.{ReadsFile, AreShort};
ghost use Rattle.lie_file.specs.Files.{equation_at, end_of, line_of, equations_from};
ghost use Rattle.lie_system.specs.Equations.{equation_read, HasJet};
ghost use Rattle.lie_scan.specs.Limits.{greatest_text_length};

use crate::lead::lead_of;
use crate::lines::{FileFail, behind_word, failed, fault_at, is_word, next_line};
use lie_jet::Space;
use lie_scan::fault::BadKind;
use lie_scan::runs::{Class, after_blanks, split_run};
use lie_scan::stop::LineFail;
use lie_scan::sum::equation_of;
use lie_system::{Equation, sum_within_limits};
use std::alloc::Global;

/// The most equations of a file.
const MAX_EQUATIONS: usize = 16;

// The equation that a text spells.
#[tactic(auto, unfolding(crate::specs::Files::equation_at))]
fn equation_at(alloc: Global, space: Space, names: &[u8], text: &[u8]) -> Result<Equation, LineFail>
    requires names { length names.now ≡ space.p + space.q }
    requires short { length text.now ≤ greatest_text_length }
    ensures value { Reads (equation_read space) result (equation_at space names.now text.now) }
    ensures jet { IfOk result (HasJet space) }
{
    let terms = equation_of(alloc, space, names, text)?;
    let lead = lead_of(space, names, text);
    let diff = sum_within_limits(alloc, terms.list.as_slice())?;
    Ok(Equation { lead, diff })
}

// Whether only skipped lines are behind the end.
fn end_of(content: &[u8], rest: &[&[u8]]) -> Result<(), FileFail>
    requires { length rest.now ≤ greatest_text_length + 1 }
    ensures { ReadsFile (λ done. done) result (end_of content.now (map (λ l. l.now) rest.now)) }
{
    let further = after_blanks(behind_word(content));
    if !further.is_empty() {
        return Err(fault_at(BadKind::Syntax, content, rest.len(), further));
    }
    match next_line(rest) {
        None => Ok(()),
        Some((other, behind)) => Err(fault_at(
            BadKind::UnknownWord,
            other,
            behind.len(),
            after_blanks(other),
        )),
    }
}

// The equation of a line behind `count` others; None where the line is the end.
#[tactic(auto, unfolding(crate::specs::Files::line_of))]
fn line_of(
    alloc: Global,
    space: Space,
    names: &[u8],
    count: usize,
    content: &[u8],
    rest: &[&[u8]],
) -> Result<Option<Equation>, FileFail>
    requires names { length names.now ≡ space.p + space.q }
    requires short { length content.now ≤ greatest_text_length }
    requires few { length rest.now ≤ greatest_text_length + 1 }
    ensures value { ReadsFile (option_map (equation_read space)) result
        (line_of space names.now count content.now (map (λ l. l.now) rest.now)) }
    ensures jet { IfOk result (λ o. IfSome o (HasJet space)) }
{
    let text = after_blanks(content);
    if is_word(b"eq".as_slice(), content) {
        if MAX_EQUATIONS <= count {
            return Err(fault_at(BadKind::TooManyEquations, content, rest.len(), text));
        }
        match equation_at(alloc, space, names, behind_word(content)) {
            Ok(equation) => Ok(Some(equation)),
            Err(fail) => Err(failed(fail, content, rest.len())),
        }
    } else if is_word(b"end".as_slice(), content) {
        if count == 0 {
            return Err(fault_at(BadKind::Syntax, content, rest.len(), text));
        }
        end_of(content, rest)?;
        Ok(None)
    } else {
        Err(fault_at(BadKind::UnknownWord, content, rest.len(), text))
    }
}

/// The equations of the lines up to the end.
pub fn equations_of(
    alloc: Global,
    space: Space,
    names: &[u8],
    lines: &[&[u8]],
) -> Result<Vec<Equation>, FileFail>
    requires names { length names.now ≡ space.p + space.q }
    requires few { length lines.now ≤ greatest_text_length + 1 }
    requires short { AreShort (map (λ l. l.now) lines.now) }
    ensures value { ReadsFile (λ es. map (equation_read space) es.items) result
        (equations_from space names.now [] (map (λ l. l.now) lines.now)) }
    ensures jets { IfOk result (λ es. Every (HasJet space) es.items) }
{
    let mut equations: Vec<Equation> = Vec::new(alloc);
    let mut i = 0;
    while i < lines.len() {
        let (content, _) = split_run(Class::Content, lines[i]);
        i += 1;
        if !after_blanks(content).is_empty() {
            match line_of(alloc, space, names, equations.len(), content, &lines[i..])? {
                Some(equation) => equations.push(equation)?,
                None => return Ok(equations),
            }
        }
    }
    Err(FileFail::Ended)
}
