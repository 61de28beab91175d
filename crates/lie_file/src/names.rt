// The header, and the lines that name variables.
ghost use Rattle.std.specs.Prelude.{◌≡◌, ◌+◌, ◌-◌, ◌≤◌, ◌<◌, ◌==◌, length, map, IfOk, OnOk, OnSome};
ghost use Rattle.std.specs.List.{list_any};
ghost use Rattle.lie_scan.specs.Stops.{Gives, Reads};
ghost use Rattle.lie_file.specs.FileLines.{ReadsFile, is_header, after_header, name_of, name_turn, names_at, names_of, name_turn_of};
ghost use Rattle.lie_scan.specs.Turns.{all_turns};
ghost use Rattle.lie_scan.specs.Limits.{greatest_text_length};
ghost use Rattle.lie_jet.specs.Limits.{greatest_variable_count};

use crate::lines::{FileFail, FileStop, behind_word, failed, fault_at, is_word, next_line};
use lie_scan::fault::BadKind;
use lie_scan::runs::{Class, after_blanks, is_in, split_run};
use lie_scan::stop::{LineFail, Stop, stop_at};
use std::alloc::Global;

/// The most names of one line.
const MAX_NAMES: usize = 4;

// Whether the words of a line are `lie` and `1`.
fn is_header(content: &[u8]) -> bool
    ensures { result ≡ is_header content.now }
{
    let rest = behind_word(content);
    is_word(b"lie".as_slice(), content)
        && is_word(b"1".as_slice(), rest)
        && after_blanks(behind_word(rest)).is_empty()
}

/// The lines behind the header.
#[tactic(auto, unfolding(crate::specs::FileLines::after_header))]
pub fn after_header<'a>(lines: &'a [&'a [u8]]) -> Result<&'a [&'a [u8]], FileFail>
    requires { length lines.now ≤ greatest_text_length + 1 }
    ensures fewer { IfOk result (λ ls. length ls.now ≤ length lines.now) }
    ensures value { ReadsFile (λ ls. map (λ l. l.now) ls.now) result (after_header (map (λ l. l.now) lines.now)) }
{
    match next_line(lines) {
        None => Err(FileFail::Fault(FileStop {
            kind: BadKind::Header,
            lines_left: lines.len(),
            column: 1,
        })),
        Some((content, behind)) => {
            if is_header(content) {
                Ok(behind)
            } else {
                Err(fault_at(
                    BadKind::Header,
                    content,
                    behind.len(),
                    after_blanks(content),
                ))
            }
        }
    }
}

// Whether a byte is one of the names.
fn has(names: &[u8], letter: u8) -> bool
    ensures { result ≡ list_any (λ n. n == letter) names.now }
{
    for name in names {
        if *name == letter {
            return true;
        }
    }
    false
}

// The name that a word gives, where the line gave `count` names before and all names so far are `given`.
fn name_of(given: &[u8], count: usize, word: &[u8], text: &[u8]) -> Result<u8, Stop>
    ensures value { Gives (λ n. n) result (name_of given.now count word.now text.now) }
    ensures few { OnOk result (count < greatest_variable_count) }
{
    match word {
        [letter] => {
            if !is_in(Class::Letter, *letter) {
                Err(stop_at(BadKind::NameBad, text))
            } else if MAX_NAMES <= count {
                Err(stop_at(BadKind::TooManyNames, text))
            } else if has(given, *letter) {
                Err(stop_at(BadKind::NameTwice, text))
            } else {
                Ok(*letter)
            }
        }
        _ => Err(stop_at(BadKind::NameBad, text)),
    }
}

// A further name of a line, and what is behind; None at the end of the line.
fn next_name<'a>(
    before: usize,
    given: &[u8],
    text: &'a [u8],
) -> Result<Option<(u8, &'a [u8])>, LineFail>
    requires { before ≤ length given.now }
    ensures value { Reads (λ o. name_turn_of given.now text.now o) result (name_turn before given.now text.now) }
    ensures few { IfOk result (λ o. OnSome o (length given.now < before + greatest_variable_count)) }
{
    let text = after_blanks(text);
    if text.is_empty() {
        return Ok(None);
    }
    let (word, behind) = split_run(Class::Word, text);
    let name = name_of(given, given.len() - before, word, text)?;
    Ok(Some((name, behind)))
}

// The names so far and the further ones of a line, and what is behind.
fn further_names<'a>(
    before: usize,
    names: Vec<u8>,
    text: &'a [u8],
) -> Result<(Vec<u8>, &'a [u8]), LineFail>
    requires longer { before ≤ length names.items }
    requires few { length names.items ≤ before + greatest_variable_count }
    ensures longer { IfOk result (λ x. before ≤ length x.0.items) }
    ensures few { IfOk result (λ x. length x.0.items ≤ before + greatest_variable_count) }
    ensures value { Reads (λ x. (x.0.items, x.1.now)) result (all_turns (name_turn before) names.items text.now) }
{
    let mut given = names;
    let mut rest = text;
    'names: loop {
        match next_name(before, given.as_slice(), rest)? {
            Some((name, behind)) => {
                given.push(name)?;
                rest = behind;
            }
            None => return Ok((given, after_blanks(rest))),
        }
    }
}

// The names given before and those that the words of a text give.
#[tactic(auto, unfolding(crate::specs::FileLines::names_at))]
fn names_at(alloc: Global, before: &[u8], text: &[u8]) -> Result<Vec<u8>, LineFail>
    ensures value { Reads (λ names. names.items) result (names_at before.now text.now) }
    ensures longer { IfOk result (λ names. length before.now < length names.items) }
    ensures few { IfOk result (λ names. length names.items ≤ length before.now + greatest_variable_count) }
{
    let given = Vec::from_slice(alloc, before)?;
    let (names, rest) = further_names(before.len(), given, text)?;
    if names.len() == before.len() {
        return Err(LineFail::Fault(stop_at(BadKind::Syntax, rest)));
    }
    Ok(names)
}

/// The names given before and those of the next line, which begins with a keyword, and the lines behind it.
#[tactic(auto, unfolding(crate::specs::FileLines::names_of))]
pub fn names_of<'a>(
    alloc: Global,
    keyword: &[u8],
    before: &[u8],
    lines: &'a [&'a [u8]],
) -> Result<(Vec<u8>, &'a [&'a [u8]]), FileFail>
    requires { length lines.now ≤ greatest_text_length + 1 }
    ensures longer { IfOk result (λ x. length before.now < length x.0.items) }
    ensures few { IfOk result (λ x. length x.0.items ≤ length before.now + greatest_variable_count) }
    ensures fewer { IfOk result (λ x. length x.1.now ≤ length lines.now) }
    ensures value { ReadsFile (λ x. (x.0.items, map (λ l. l.now) x.1.now)) result
        (names_of keyword.now before.now (map (λ l. l.now) lines.now)) }
{
    match next_line(lines) {
        None => Err(FileFail::Ended),
        Some((content, behind)) => {
            if !is_word(keyword, content) {
                return Err(fault_at(
                    BadKind::UnknownWord,
                    content,
                    behind.len(),
                    after_blanks(content),
                ));
            }
            match names_at(alloc, before, behind_word(content)) {
                Ok(names) => Ok((names, behind)),
                Err(fail) => Err(failed(fail, content, behind.len())),
            }
        }
    }
}
