// What a rule leaves of systems over two to four variables that are given as texts.
use lie_bytes::NoMemory;
use lie_cross::{try_cross, try_foreign, try_isolate, try_reduce};
use lie_lin::LinSystem;
use lie_linear_texts::{SystemTexts, is_same, of_texts, system};
use lie_ring::{PastKind, PolyFail};
use lie_rules::{try_absent, try_integrate, try_lowest, try_split, try_substitute, try_zero};
use std::alloc::Global;

/// A rule; that of two equations with the second place.
#[derive(Clone, Copy)]
pub enum Rule {
    Zero,
    Lowest,
    Absent,
    Split,
    Substitute,
    Integrate,
    Isolate,
    Reduce,
    Foreign,
    Cross(usize),
}

/// Tries a rule at a place of a system; false where there is no such place.
fn tried(
    alloc: Global,
    rule: Rule,
    place: usize,
    system: &mut LinSystem,
) -> Result<bool, PolyFail> {
    if place >= system.equations().len() {
        return Ok(false);
    }
    match rule {
        Rule::Zero => try_zero(system, alloc, place),
        Rule::Lowest => try_lowest(system, alloc, place),
        Rule::Absent => try_absent(system, alloc, place),
        Rule::Split => try_split(system, alloc, place),
        Rule::Substitute => try_substitute(system, alloc, place),
        Rule::Integrate => try_integrate(system, alloc, place),
        Rule::Isolate => try_isolate(system, alloc, place),
        Rule::Reduce => try_reduce(system, alloc, place),
        Rule::Foreign => try_foreign(system, alloc, place),
        Rule::Cross(second) if place < second && second < system.equations().len() => {
            try_cross(system, alloc, place, second)
        }
        Rule::Cross(_) => Ok(false),
    }
}

/// Whether a rule at a place of a system leaves another, or does not apply and leaves it as it is.
pub fn leaves(
    alloc: Global,
    names: &[u8],
    rule: Rule,
    place: usize,
    before: &SystemTexts,
    after: Option<&SystemTexts>,
) -> Result<bool, NoMemory> {
    let mut found = system(alloc, names, before)?;
    let yes = tried(alloc, rule, place, &mut found).map_err(|_| NoMemory)?;
    let wanted = system(alloc, names, after.unwrap_or(before))?;
    Ok(yes == after.is_some() && is_same(alloc, &found, &wanted)?)
}

/// Whether a rule at a place of a system is past a limit of this kind.
pub fn is_past(
    alloc: Global,
    names: &[u8],
    rule: Rule,
    place: usize,
    before: &SystemTexts,
    kind: PastKind,
) -> Result<bool, NoMemory> {
    let mut found = system(alloc, names, before)?;
    match tried(alloc, rule, place, &mut found) {
        Err(PolyFail::Past(past)) => {
            let wanted = system(alloc, names, before)?;
            Ok(past == kind && is_same(alloc, &found, &wanted)?)
        }
        _ => Ok(false),
    }
}

// General forms that are 0, for four variables.
const ZEROS: &[u8] = b";;;";

/// Whether a rule at a place leaves these equations, or does not apply and leaves them as they are.
pub fn leaves_equations(
    alloc: Global,
    names: &[u8],
    rule: Rule,
    place: usize,
    unknowns: &[u8],
    before: &[u8],
    after: Option<&[u8]>,
) -> Result<bool, NoMemory> {
    let general = match names.len() {
        count @ 1..=4 => &ZEROS[..count - 1],
        _ => ZEROS,
    };
    let first = of_texts(unknowns, before, general, 9);
    let last = of_texts(unknowns, after.unwrap_or(before), general, 9);
    leaves(alloc, names, rule, place, &first, after.map(|_| &last))
}
