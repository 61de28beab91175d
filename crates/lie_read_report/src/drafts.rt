// Reports as they are written.
ghost use Rattle.std.specs.Prelude.{◌≡◌, ◌≤◌, ◌<◌, ◌+◌, [], map, length, drop, take, option_map};
ghost use Rattle.lie_print.specs.PrintedTerms.{printed};
ghost use Rattle.lie_report.specs.Reports.{entry_of};
ghost use Rattle.lie_readback.specs.Readings.{Reads, read_each};
ghost use Rattle.lie_readback.specs.DraftViews.{terms_seen, named_seen, draft_seen};
ghost use Rattle.lie_read_report.specs.Combinations.{read_entry};
ghost use Rattle.lie_read_report.specs.ReportDrafts.{field_in, read_field, read_found, read_basis, read_most, read_fields};
ghost use Rattle.lie_read_report.specs.ReportDrafts.{read_symmetries, read_degree, read_determining, read_kind, read_from, read_text};
ghost use Rattle.lie_read_report.specs.Views.{basis_seen, written_seen};

use crate::combinations::read_entry;
use crate::places::{has_none, last_place};
use lie_print::printed_term::Term;
use lie_readback::drafts::{Draft, Names, behind, read_lines, read_names, split_forms};
use lie_readback::parts::{lines_of, words_of};
use lie_readback::sums::sum_of_words;
use lie_readback::unread::Unread;
use lie_ring::Ratio;
use lie_scan::number::value_of;
use std::alloc::Global;

/// A basis as it is written: the terms of its fields, and its commutators.
#[derive(Drop)]
pub struct Basis {
    pub fields: Vec<Vec<Term>>,
    pub table: Vec<Vec<Ratio>>,
}

/// A report as it is written.
#[derive(Drop)]
pub enum Written {
    Determining(Draft),
    Symmetries(Draft, Option<Basis>),
    Degree(Names, u8, Vec<Vec<Term>>),
}

// The terms of the field in the words of a line.
fn field_in(alloc: Global, names: &[u8], words: &[&[u8]]) -> Result<Vec<Term>, Unread>
    requires { length names.now ≤ 8 }
    ensures { Reads (λ ts. map printed ts.items) result (field_in names.now (map (λ w. w.now) words.now)) }
{
    match words {
        [_, _, words @ ..] => sum_of_words(alloc, names, words),
        _ => Err(Unread::Other),
    }
}

// The terms of the field in a line.
fn read_field(alloc: Global, names: &[u8], line: &[u8]) -> Result<Vec<Term>, Unread>
    requires { length names.now ≤ 8 }
    ensures { Reads (λ ts. map printed ts.items) result (read_field names.now line.now) }
{
    let words = words_of(alloc, line)?;
    field_in(alloc, names, words.as_slice())
}

// The terms of the fields in lines.
fn fields_in(alloc: Global, names: &[u8], lines: &[&[u8]]) -> Result<Vec<Vec<Term>>, Unread>
    requires { length names.now ≤ 8 }
    ensures { Reads (λ Es. map terms_seen Es.items) result (read_each (read_field names.now) [] (map (λ l. l.now) lines.now)) }
{
    let mut fields = Vec::new(alloc);
    let mut i = 0;
    while i < lines.len() {
        let field = read_field(alloc, names, lines[i])?;
        fields.push(field)?;
        i += 1;
    }
    Ok(fields)
}

// The combinations of `count` generators in lines.
fn entries_in(alloc: Global, count: usize, lines: &[&[u8]]) -> Result<Vec<Vec<Ratio>>, Unread>
    ensures { Reads (λ es. map entry_of es.items) result (read_each (read_entry count) [] (map (λ l. l.now) lines.now)) }
{
    let mut entries = Vec::new(alloc);
    let mut i = 0;
    while i < lines.len() {
        let entry = read_entry(alloc, count, lines[i])?;
        entries.push(entry)?;
        i += 1;
    }
    Ok(entries)
}

// The basis in the lines of `count` fields and those behind them.
#[tactic(auto, unfolding(crate::specs::ReportDrafts::read_found))]
fn read_found(alloc: Global, names: &[u8], count: usize, lines: &[&[u8]]) -> Result<Basis, Unread>
    requires { length names.now ≤ 8 }
    ensures { Reads basis_seen result (read_found names.now count (map (λ l. l.now) lines.now)) }
{
    if lines.len() < 3 || lines.len() - 3 < count {
        return Err(Unread::Other);
    }
    let (fields, entries) = split_forms(lines, count);
    let fields = fields_in(alloc, names, fields)?;
    let table = entries_in(alloc, count, entries)?;
    Ok(Basis { fields, table })
}

// The basis in lines, where there is one.
#[tactic(auto, unfolding(crate::specs::ReportDrafts::read_basis))]
fn read_basis(alloc: Global, names: &[u8], lines: &[&[u8]]) -> Result<Option<Basis>, Unread>
    requires { length names.now ≤ 8 }
    ensures { Reads (option_map basis_seen) result (read_basis names.now (map (λ l. l.now) lines.now)) }
{
    match lines {
        [first, lines @ ..] => {
            if has_none(first) {
                return Ok(None);
            }
            let count = last_place(b'c', lines)?;
            let basis = read_found(alloc, names, count, lines)?;
            Ok(Some(basis))
        }
        [] => Err(Unread::Other),
    }
}

// The lines up to the second of the basis, and those from its first on.
fn split_basis<'a>(lines: &'a [&'a [u8]], place: usize) -> (&'a [&'a [u8]], &'a [&'a [u8]])
    requires { place < length lines.now }
    ensures system { map (λ l. l.now) result.0.now ≡ take (place + 2) (map (λ l. l.now) lines.now) }
    ensures basis { map (λ l. l.now) result.1.now ≡ drop place (map (λ l. l.now) lines.now) }
{
    if place + 2 < lines.len() {
        (&lines[..place + 2], &lines[place..])
    } else {
        (lines, &lines[place..])
    }
}

// The report of symmetries with these lines.
#[tactic(auto, unfolding(crate::specs::ReportDrafts::read_symmetries))]
fn read_symmetries(alloc: Global, lines: &[&[u8]]) -> Result<Written, Unread>
    ensures { Reads written_seen result (read_symmetries (map (λ l. l.now) lines.now)) }
{
    let place = last_place(b'g', lines)?;
    let (system, basis) = split_basis(lines, place);
    let draft = read_lines(alloc, system)?;
    let found = read_basis(alloc, draft.names.letters.as_slice(), basis)?;
    Ok(Written::Symmetries(draft, found))
}

// The number behind `degree `.
fn read_most(line: &[u8]) -> Result<u8, Unread>
    ensures { Reads (λ n. n) result (read_most line.now) }
{
    match value_of(behind(line, 7)) {
        Some(most) => {
            if most < 1 << 8 {
                Ok(most as u8)
            } else {
                Err(Unread::Other)
            }
        }
        None => Err(Unread::Other),
    }
}

// The fields in lines, two of which are behind them.
fn read_fields(alloc: Global, names: &[u8], lines: &[&[u8]]) -> Result<Vec<Vec<Term>>, Unread>
    requires { length names.now ≤ 8 }
    ensures { Reads (λ Es. map terms_seen Es.items) result (read_fields names.now (map (λ l. l.now) lines.now)) }
{
    fields_in(alloc, names, &lines[..lines.len().saturating_sub(2)])
}

// The report of the fields up to a degree with these lines.
#[tactic(auto, unfolding(crate::specs::ReportDrafts::read_degree))]
fn read_degree(alloc: Global, lines: &[&[u8]]) -> Result<Written, Unread>
    ensures { Reads written_seen result (read_degree (map (λ l. l.now) lines.now)) }
{
    match lines {
        [_, vars, deps, most, _, lines @ ..] => {
            let names = read_names(alloc, vars, deps)?;
            let most = read_most(most)?;
            let fields = read_fields(alloc, names.letters.as_slice(), lines)?;
            Ok(Written::Degree(names, most, fields))
        }
        _ => Err(Unread::Other),
    }
}

// The report of determining equations with these lines.
fn read_determining(alloc: Global, lines: &[&[u8]]) -> Result<Written, Unread>
    ensures { Reads written_seen result (read_determining (map (λ l. l.now) lines.now)) }
{
    let draft = read_lines(alloc, lines)?;
    Ok(Written::Determining(draft))
}

// The report with these lines, of the kind that a letter tells.
fn read_kind(alloc: Global, letter: u8, lines: &[&[u8]]) -> Result<Written, Unread>
    ensures { Reads written_seen result (read_kind letter (map (λ l. l.now) lines.now)) }
{
    match letter {
        b't' => read_determining(alloc, lines),
        b'm' => read_symmetries(alloc, lines),
        b'g' => read_degree(alloc, lines),
        _ => Err(Unread::Other),
    }
}

// The report with these lines, of the kind that the first letter of a text tells.
fn read_from(alloc: Global, kind: &[u8], lines: &[&[u8]]) -> Result<Written, Unread>
    ensures { Reads written_seen result (read_from kind.now (map (λ l. l.now) lines.now)) }
{
    match kind {
        [letter, ..] => read_kind(alloc, *letter, lines),
        [] => Err(Unread::Other),
    }
}

/// The report with this text, as it is written.
#[tactic(auto, unfolding(crate::specs::ReportDrafts::read_text))]
pub fn read_draft(alloc: Global, text: &[u8]) -> Result<Written, Unread>
    ensures { Reads written_seen result (read_text text.now) }
{
    let lines = lines_of(alloc, text)?;
    read_from(alloc, behind(text, 6), lines.as_slice())
}
