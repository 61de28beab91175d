// Linear systems as texts, and when two are the same.
use crate::words::{counts, triple, unknown_of};
use lie_bytes::NoMemory;
use lie_jet::Space;
use lie_lin::{LinEq, LinSystem, Unknown, compare_equations, of_triples};
use std::alloc::Global;

/// The parts of a system as texts: `1xu 2` are the unknowns f1(x,u) and f2(), and `f1_x;3*xx*u*f1 -f2` the forms f1_x and
/// 3*x^2*u*f1 - f2.
#[derive(Clone, Copy)]
pub struct SystemTexts<'a> {
    unknowns: &'a [u8],
    equations: &'a [u8],
    general: &'a [u8],
    next: u32,
}

/// The texts of the parts of a system.
pub fn of_texts<'a>(
    unknowns: &'a [u8],
    equations: &'a [u8],
    general: &'a [u8],
    next: u32,
) -> SystemTexts<'a> {
    SystemTexts {
        unknowns,
        equations,
        general,
        next,
    }
}

/// The form of a text.
fn form(alloc: Global, names: &[u8], text: &[u8]) -> Result<LinEq, NoMemory> {
    let mut list = Vec::new(alloc);
    if text.len() > 0 {
        for word in text.split(|b| *b == b' ') {
            list.push(triple(alloc, names, word)?)?;
        }
    }
    of_triples(alloc, list.as_slice()).map_err(|_| NoMemory)
}

/// The forms of a text.
fn forms(alloc: Global, names: &[u8], text: &[u8]) -> Result<Vec<LinEq>, NoMemory> {
    let mut list = Vec::new(alloc);
    for part in text.split(|b| *b == b';') {
        list.push(form(alloc, names, part)?)?;
    }
    Ok(list)
}

/// The variables of letters.
fn vars(names: &[u8], letters: &[u8]) -> u8 {
    let counts = counts(names, letters);
    let mut vars = 0;
    for variable in 0..8 {
        if counts[variable] > 0 {
            vars |= 1 << variable;
        }
    }
    vars
}

/// The unknowns of a text.
fn unknowns(alloc: Global, names: &[u8], text: &[u8]) -> Result<Vec<Unknown>, NoMemory> {
    let mut list = Vec::new(alloc);
    if text.len() > 0 {
        for word in text.split(|b| *b == b' ') {
            list.push(Unknown {
                number: unknown_of(word),
                vars: vars(names, word),
            })?;
        }
    }
    Ok(list)
}

/// The system with these texts over variables with these names, each one letter but `f`, of which the last is dependent. `NoMemory`
/// comes also where the texts are none of a valid system.
pub fn system(alloc: Global, names: &[u8], texts: &SystemTexts) -> Result<LinSystem, NoMemory> {
    let space = match names.len() {
        2 => Space { p: 1, q: 1 },
        3 => Space { p: 2, q: 1 },
        _ => Space { p: 3, q: 1 },
    };
    let unknowns = unknowns(alloc, names, texts.unknowns)?;
    let equations = match texts.equations {
        [] => Vec::new(alloc),
        text => forms(alloc, names, text)?,
    };
    let general = forms(alloc, names, texts.general)?;
    LinSystem::of_parts(alloc, space, unknowns, equations, general, texts.next)?.ok_or(NoMemory)
}

/// Whether two lists have the same forms.
fn are_same(alloc: Global, found: &[LinEq], wanted: &[LinEq]) -> Result<bool, NoMemory> {
    if found.len() != wanted.len() {
        return Ok(false);
    }
    for i in 0..found.len() {
        if !compare_equations(alloc, &found[i], &wanted[i])?.is_eq() {
            return Ok(false);
        }
    }
    Ok(true)
}

/// Whether two systems have the same unknowns, equations and general forms, and the same number for the next unknown.
pub fn is_same(alloc: Global, found: &LinSystem, wanted: &LinSystem) -> Result<bool, NoMemory> {
    Ok(
        found.unknowns() == wanted.unknowns()
            && found.next() == wanted.next()
            && are_same(alloc, found.equations(), wanted.equations())?
            && are_same(alloc, found.general(), wanted.general())?,
    )
}
