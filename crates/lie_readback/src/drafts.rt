// Systems as they are written.
ghost use Rattle.std.specs.Prelude.{◌≡◌, ◌≤◌, ◌<◌, ◌+◌, ◌^◌, ◌++◌, ◌∷◌, ◌-◌, ◌==◌, if◌then◌else◌, filter, take, drop, map};
ghost use Rattle.std.specs.Prelude.{length, IfOk, OnOk, []};
ghost use Rattle.std.specs.List.{range_with_len};
ghost use Rattle.lie_lin.specs.Systems.{has_bit, unknown_of};
ghost use Rattle.lie_readback.specs.Readings.{Reads, read_each};
ghost use Rattle.lie_readback.specs.Sums.{read_sum};
ghost use Rattle.lie_readback.specs.SystemDrafts.{names_in, are_names, is_count, read_named, is_free, free_lines, behind_free};
ghost use Rattle.lie_readback.specs.SystemDrafts.{stand_in, variables_in, unknowns_in, read_component, read_forms, read_system};
ghost use Rattle.lie_readback.specs.SystemDrafts.{read_lines};
ghost use Rattle.lie_readback.specs.DraftViews.{terms_seen, named_seen, draft_seen};

use crate::sums::read_sum;
use crate::unread::Unread;
use lie_jet::Space;
use lie_lin::Unknown;
use lie_print::printed_term::Term;
use lie_scan::runs::{Class, is_in};
use std::alloc::{AllocError, Global};

/// The numbers of variables, and the letter of each, the independent ones first.
#[derive(Drop)]
pub struct Names {
    pub space: Space,
    pub letters: Vec<u8>,
}

/// A system as it is written: the terms of its forms in the order of their lines.
#[derive(Drop)]
pub struct Draft {
    pub names: Names,
    pub unknowns: Vec<Unknown>,
    pub general: Vec<Vec<Term>>,
    pub equations: Vec<Vec<Term>>,
}

/// The text behind the first bytes; empty where there are no more.
pub fn behind(text: &[u8], count: usize) -> &[u8]
    ensures { result.now ≡ drop count text.now }
{
    if count < text.len() {
        &text[count..]
    } else {
        &[]
    }
}

// Puts a byte behind names, unless it is a blank.
fn push_name(names: &mut Vec<u8>, byte: u8) -> Result<(), AllocError>
    ensures { OnOk result (names.new.items ≡ names.old.items ++ (if byte == 32 then [] else byte ∷ [])) }
{
    if byte == b' ' {
        return Ok(());
    }
    names.push(byte)?;
    Ok(())
}

// Puts the names of a line behind others: what is no blank behind its keyword of four letters.
fn push_names(names: &mut Vec<u8>, line: &[u8]) -> Result<(), AllocError>
    ensures { OnOk result (names.new.items ≡ names.old.items ++ names_in line.now) }
{
    let letters = behind(line, 4);
    for byte in letters {
        push_name(names, *byte)?;
    }
    Ok(())
}

// Whether these are letters, no two of them the same.
fn are_names(names: &[u8]) -> bool
    ensures { result ≡ are_names names.now }
{
    let mut i = 0;
    while i < names.len() {
        if !is_in(Class::Letter, names[i]) || names[i + 1..].contains(&names[i]) {
            return false;
        }
        i += 1;
    }
    true
}

/// The variables, by the lines of the independent and of the dependent ones.
#[tactic(auto, unfolding(crate::specs::SystemDrafts::read_named))]
pub fn read_names(alloc: Global, vars: &[u8], deps: &[u8]) -> Result<Names, Unread>
    ensures { Reads named_seen result (read_named vars.now deps.now) }
{
    let mut letters = Vec::new(alloc);
    push_names(&mut letters, vars)?;
    let p = letters.len();
    push_names(&mut letters, deps)?;
    let q = letters.len() - p;
    if !(1..=4).contains(&p) || !(1..=4).contains(&q) || !are_names(letters.as_slice()) {
        return Err(Unread::Other);
    }
    Ok(Names {
        space: Space {
            p: p as u8,
            q: q as u8,
        },
        letters,
    })
}

// Whether a line begins as those of unknowns do.
fn is_free(line: &[u8]) -> bool
    ensures { result ≡ is_free line.now }
{
    match line {
        [first, ..] => *first == b'f',
        [] => false,
    }
}

// How many lines of unknowns stand in front.
fn count_free(lines: &[&[u8]]) -> usize
    ensures { result ≡ length (free_lines (map (λ l. l.now) lines.now)) }
{
    let mut count = 0;
    while count < lines.len() {
        if !is_free(lines[count]) {
            return count;
        }
        count += 1;
    }
    count
}

// The lines of unknowns in front, and those behind them.
fn split_free<'a>(lines: &'a [&'a [u8]]) -> (&'a [&'a [u8]], &'a [&'a [u8]])
    ensures front { map (λ l. l.now) result.0.now ≡ free_lines (map (λ l. l.now) lines.now) }
    ensures back { map (λ l. l.now) result.1.now ≡ behind_free (map (λ l. l.now) lines.now) }
{
    let count = count_free(lines);
    lines.split_at(count)
}

// The variables whose names stand in the line of an unknown, as bits.
fn variables_in(names: &[u8], line: &[u8]) -> u8
    requires { length names.now ≤ 8 }
    ensures { filter (has_bit result) (range_with_len 0 8) ≡ variables_in names.now line.now }
{
    let letters = behind(line, 6);
    let mut bits = 0;
    let mut i = names.len();
    while i > 0 {
        i -= 1;
        bits = 2 * bits + u8::from(letters.contains(&names[i]));
    }
    bits
}

// The unknowns of lines, which are numbered from 1.
fn unknowns_in(alloc: Global, names: &[u8], lines: &[&[u8]]) -> Result<Vec<Unknown>, AllocError>
    requires names { length names.now ≤ 8 }
    requires few { length lines.now + 1 < 2 ^ 32 }
    ensures { IfOk result (λ us. map unknown_of us.items ≡ unknowns_in names.now 1 (map (λ l. l.now) lines.now)) }
{
    let mut unknowns = Vec::new(alloc);
    for (i, line) in lines.iter().enumerate() {
        unknowns.push(Unknown {
            number: i as u32 + 1,
            vars: variables_in(names, line),
        })?;
    }
    Ok(unknowns)
}

// The sums behind `general x = ` in lines.
fn read_components(alloc: Global, names: &[u8], lines: &[&[u8]]) -> Result<Vec<Vec<Term>>, Unread>
    requires { length names.now ≤ 8 }
    ensures { Reads (λ Es. map terms_seen Es.items) result (read_each (read_component names.now) [] (map (λ l. l.now) lines.now)) }
{
    let mut components = Vec::new(alloc);
    let mut i = 0;
    while i < lines.len() {
        let component = read_sum(alloc, names, behind(lines[i], 12))?;
        components.push(component)?;
        i += 1;
    }
    Ok(components)
}

// The sums that lines are.
fn read_equations(alloc: Global, names: &[u8], lines: &[&[u8]]) -> Result<Vec<Vec<Term>>, Unread>
    requires { length names.now ≤ 8 }
    ensures { Reads (λ Es. map terms_seen Es.items) result (read_each (read_sum names.now) [] (map (λ l. l.now) lines.now)) }
{
    let mut equations = Vec::new(alloc);
    let mut i = 0;
    while i < lines.len() {
        let equation = read_sum(alloc, names, lines[i])?;
        equations.push(equation)?;
        i += 1;
    }
    Ok(equations)
}

/// The first `count` lines, and the others: a line is between the two, and two are behind them.
pub fn split_forms<'a>(lines: &'a [&'a [u8]], count: usize) -> (&'a [&'a [u8]], &'a [&'a [u8]])
    requires { count + 3 ≤ length lines.now }
    ensures general { map (λ l. l.now) result.0.now ≡ take count (map (λ l. l.now) lines.now) }
    ensures equations { map (λ l. l.now) result.1.now
        ≡ take (length (map (λ l. l.now) lines.now) - (count + 3)) (drop (count + 1) (map (λ l. l.now) lines.now)) }
{
    (&lines[..count], &lines[count + 1..lines.len() - 2])
}

// The general forms and the equations of a system.
#[tactic(auto, unfolding(crate::specs::SystemDrafts::read_forms))]
fn read_forms(
    alloc: Global,
    names: Names,
    unknowns: Vec<Unknown>,
    lines: &[&[u8]],
) -> Result<Draft, Unread>
    requires { length names.letters.items ≤ 8 }
    ensures { Reads draft_seen result (read_forms (named_seen names) (map unknown_of unknowns.items) (map (λ l. l.now) lines.now)) }
{
    let count = usize::from(names.space.p) + usize::from(names.space.q);
    if lines.len() < count + 3 {
        return Err(Unread::Other);
    }
    let (general, equations) = split_forms(lines, count);
    let general = read_components(alloc, names.letters.as_slice(), general)?;
    let equations = read_equations(alloc, names.letters.as_slice(), equations)?;
    Ok(Draft {
        names,
        unknowns,
        general,
        equations,
    })
}

// The system whose lines these are, behind the names.
#[tactic(auto, unfolding(crate::specs::SystemDrafts::read_system))]
fn read_system(alloc: Global, names: Names, lines: &[&[u8]]) -> Result<Draft, Unread>
    requires { length names.letters.items ≤ 8 }
    ensures { Reads draft_seen result (read_system (named_seen names) (map (λ l. l.now) lines.now)) }
{
    let (free, rest) = split_free(lines);
    if free.len() + 1 >= 1 << 32 {
        return Err(Unread::Other);
    }
    let unknowns = unknowns_in(alloc, names.letters.as_slice(), free)?;
    read_forms(alloc, names, unknowns, rest)
}

/// The system of a report, by the lines of the report up to the second behind the system.
pub fn read_lines(alloc: Global, lines: &[&[u8]]) -> Result<Draft, Unread>
    ensures { Reads draft_seen result (read_lines (map (λ l. l.now) lines.now)) }
{
    match lines {
        [_, vars, deps, body @ ..] => {
            let names = read_names(alloc, vars, deps)?;
            read_system(alloc, names, body)
        }
        _ => Err(Unread::Other),
    }
}
