// The fields of a basis, as brackets read them, with the places of their pivots.
ghost use Rattle.std.specs.Prelude.{◌≡◌, ◌<◌, length, pos, IfOk};
ghost use Rattle.lie_math.specs.Monomial.{degree};
ghost use Rattle.lie_geometry.specs.Invariance.{IsFieldOn};
ghost use Rattle.lie_spans.specs.Fields.{Column, field_entry};
ghost use Rattle.lie_brackets.specs.FieldTerms.{field_of_terms};
ghost use Rattle.lie_brackets.specs.Generators.{field_of_generator, IsFirstLowest, IsPivotPlace, IsGenerator};

use crate::field_terms::field_terms;
use lie_bytes::NoMemory;
use lie_jet::{Field, Space};
use lie_ring::{Mono, Whole};
use std::alloc::Global;

/// A field of a basis, with its pivot: the first column where it is not 0.
#[derive(Drop)]
pub struct Generator {
    /// For each part the list of its terms.
    pub parts: Vec<Vec<(Mono, Whole)>>,
    /// The part of the pivot.
    pub part: usize,
    /// The place of the pivot among the terms of that part.
    pub place: usize,
}

/// The generator of a field that is not 0.
pub fn generator_of(alloc: Global, space: Space, field: &Field) -> Result<Generator, NoMemory>
    requires whole { field.now.denominator ≡ 1 }
    requires on_space { IsFieldOn space field.now }
    requires some { (k : Column) × (¬ (field_entry field.now k ≡ pos 0)) }
    ensures field { IfOk result (λ made. field_of_generator made ≡ field.now) }
    ensures generator { IfOk result (IsGenerator space) }
{
    let parts = field_terms(alloc, field)?;
    let (part, place) = pivot_place(parts.as_slice());
    Ok(Generator { parts, part, place })
}

/// The first part that has a term, and the place of the first of its lowest terms.
fn pivot_place(parts: &[Vec<(Mono, Whole)>]) -> (usize, usize)
    requires { (k : Column) × (¬ (field_entry (field_of_terms parts.now) k ≡ pos 0)) }
    ensures { IsPivotPlace parts.now result.0 result.1 }
{
    for part in 0..parts.len() {
        let terms = parts[part].as_slice();
        if terms.len() > 0 {
            return (part, lowest_place(terms));
        }
    }
    unreachable!()
}

/// The place of the first of the terms with the least degree.
fn lowest_place(terms: &[(Mono, Whole)]) -> usize
    requires { 0 < length terms.now }
    ensures { IsFirstLowest terms.now result }
{
    let mut place = 0;
    for i in 1..terms.len() {
        if degree_of(&terms[i].0) < degree_of(&terms[place].0) {
            place = i;
        }
    }
    place
}

/// The sum of the exponents.
fn degree_of(mono: &Mono) -> u128
    ensures { result ≡ degree mono.now }
{
    let mut total: u128 = 0;
    for (_, exponent) in mono.pairs() {
        total += u128::from(*exponent);
    }
    total
}
