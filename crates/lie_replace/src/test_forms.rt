// Forms of triples, for tests. The variables with the numbers 0, 1 and 2 are x, y and u.
ghost use Rattle.std.specs.Prelude.{◌≡◌, IfOk};

use lie_bytes::NoMemory;
use lie_jet::Der;
use lie_lin::{LinEq, compare_equations, of_triples};
use lie_ring::{Mono, Whole};
use std::alloc::Global;

/// A number times a monomial times a derivative of an unknown.
#[derive(Clone, Copy)]
pub struct Triple {
    /// The number.
    pub number: i128,
    /// The exponents of x, y and u.
    pub exponents: [u32; 3],
    /// The unknown.
    pub unknown: u32,
    /// How often it is derived by x, y and u.
    pub counts: [u8; 3],
}

/// A triple.
pub fn t(number: i128, exponents: [u32; 3], unknown: u32, counts: [u8; 3]) -> Triple {
    Triple {
        number,
        exponents,
        unknown,
        counts,
    }
}

/// The derivative of a triple.
fn derivative(triple: &Triple) -> Der {
    let mut counts = [0; 8];
    counts[0] = triple.counts[0];
    counts[1] = triple.counts[1];
    counts[2] = triple.counts[2];
    Der {
        unknown: triple.unknown,
        counts,
    }
}

/// The monomial of a triple.
fn monomial(alloc: Global, triple: &Triple) -> Result<Mono, NoMemory> {
    let mut pairs = Vec::new(alloc);
    for variable in 0..3u32 {
        let exponent = triple.exponents[variable as usize];
        if exponent != 0 {
            pairs.push((variable, exponent))?;
        }
    }
    match Mono::new(alloc, pairs.as_slice())? {
        Some(mono) => Ok(mono),
        None => Err(NoMemory),
    }
}

/// The sum of triples.
pub fn form(alloc: Global, triples: &[Triple]) -> Result<LinEq, NoMemory> {
    let mut list = Vec::new(alloc);
    for triple in triples {
        match Whole::new(triple.number) {
            Some(number) => list.push((derivative(triple), monomial(alloc, triple)?, number))?,
            None => return Err(NoMemory),
        }
    }
    match of_triples(alloc, list.as_slice()) {
        Ok(form) => Ok(form),
        Err(_) => Err(NoMemory),
    }
}

/// Whether a form is the sum of triples.
pub fn is_form(alloc: Global, found: &LinEq, triples: &[Triple]) -> Result<bool, NoMemory> {
    let wanted = form(alloc, triples)?;
    Ok(compare_equations(alloc, found, &wanted)?.is_eq())
}

/// Three forms.
pub fn forms(
    alloc: Global,
    first: &[Triple],
    second: &[Triple],
    third: &[Triple],
) -> Result<Vec<LinEq>, NoMemory> {
    let mut list = Vec::new(alloc);
    list.push(form(alloc, first)?)?;
    list.push(form(alloc, second)?)?;
    list.push(form(alloc, third)?)?;
    Ok(list)
}

/// Whether forms are others, one by one.
pub fn are_forms(alloc: Global, found: &[LinEq], wanted: &[LinEq]) -> Result<bool, NoMemory> {
    if found.len() != wanted.len() {
        return Ok(false);
    }
    for i in 0..found.len() {
        if !compare_equations(alloc, &found[i], &wanted[i])?.is_eq() {
            return Ok(false);
        }
    }
    Ok(true)
}
