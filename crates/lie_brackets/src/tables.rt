// The table of the brackets of a basis.
ghost use Rattle.std.specs.Prelude.{◌≡◌, ◌+◌, ◌<◌, suc, length, IfOk, IfErr, OnOk};
ghost use Rattle.std.specs.List.{AllByRecursion as Every, Contains};
ghost use Rattle.lie_systems.specs.Works.{IsWorkWithin};
ghost use Rattle.lie_spans.specs.Fields.{column_before, field_entry, IsFieldIn};
ghost use Rattle.lie_spans.specs.Reduced.{IsReduced};
ghost use Rattle.lie_brackets.specs.Bulks.{BracketMakes};
ghost use Rattle.lie_brackets.specs.Causes.{IsWorkCause};
ghost use Rattle.lie_brackets.specs.Generators.{field_of_generator, IsGenerator, fields_of, pairs_before, AreEntriesWithin};
ghost use Rattle.lie_brackets.specs.Tables.{IsClosed, pairs_of, IsEntry, IsTable, lists_of, TableMakes};

use crate::brackets::bracket_of_terms;
use crate::coordinates::coordinate;
use crate::field_terms::field_terms;
use crate::generators::{Generator, generator_of};
use lie_bytes::NoMemory;
use lie_jet::{Field, Space, space_is_small};
use lie_ring::{PolyFail, Ratio};
use std::alloc::Global;

/// The table of a reduced basis that is closed under the bracket (Olver, Applications of Lie Groups to Differential Equations,
/// section 1.4): for each two fields, in lexicographic order, a fraction in lowest terms for each field of the basis, and the bracket of
/// the two is the sum of the fields, each times its fraction. Each field has a part for each of the p + q variables, in these variables
/// alone, over 1.
///
/// `Past` comes exactly where the bracket of two fields is past a limit.
pub fn table(alloc: Global, space: Space, basis: &[Field]) -> Result<Vec<Vec<Ratio>>, PolyFail>
    requires whole { Every (λ V. V.denominator ≡ 1) basis.now }
    requires fields { Every (IsFieldIn (space.p + space.q)) basis.now }
    requires reduced { IsReduced field_entry column_before basis.now }
    requires closed { IsClosed space basis.now }
    ensures entries { IfOk result (λ made. IsTable space basis.now (lists_of made.items)) }
    ensures fits { OnOk result (IsWorkWithin (TableMakes space basis.now)) }
    ensures past { IfErr result (λ fail. IsWorkCause fail (TableMakes space basis.now)) }
{
    let generators = generators_of(alloc, space, basis)?;
    let mut entries = Vec::new(alloc);
    for first in 0..generators.len() {
        push_entries(&mut entries, alloc, space, generators.as_slice(), first)?;
    }
    Ok(entries)
}

/// The generators of the basis.
fn generators_of(alloc: Global, space: Space, basis: &[Field]) -> Result<Vec<Generator>, NoMemory>
    requires whole { Every (λ V. V.denominator ≡ 1) basis.now }
    requires fields { Every (IsFieldIn (space.p + space.q)) basis.now }
    requires reduced { IsReduced field_entry column_before basis.now }
    ensures fields { IfOk result (λ made. fields_of made.items ≡ basis.now) }
    ensures each { IfOk result (λ made. Every (IsGenerator space) made.items) }
{
    let mut generators = Vec::new(alloc);
    for field in basis {
        let generator = generator_of(alloc, space, field)?;
        generators.push(generator)?;
    }
    Ok(generators)
}

/// Puts the entries of the pairs of one generator with each later one behind those of the pairs before.
fn push_entries(
    entries: &mut Vec<Vec<Ratio>>,
    alloc: Global,
    space: Space,
    generators: &[Generator],
    first: usize,
) -> Result<(), PolyFail>
    requires each { Every (IsGenerator space) generators.now }
    requires reduced { IsReduced field_entry column_before (fields_of generators.now) }
    requires closed { IsClosed space (fields_of generators.now) }
    requires inside { first < length generators.now }
    requires before { AreEntriesWithin space (fields_of generators.now) (pairs_before first (fields_of generators.now))
        (lists_of entries.old.items) }
    ensures entries { OnOk result (AreEntriesWithin space (fields_of generators.now) (pairs_before (suc first) (fields_of generators.now))
        (lists_of entries.new.items)) }
    ensures past { IfErr result (λ fail. IsWorkCause fail (TableMakes space (fields_of generators.now))) }
{
    for second in first + 1..generators.len() {
        let ratios = entry(
            alloc,
            space,
            generators,
            &generators[first],
            &generators[second],
        )?;
        entries.push(ratios)?;
    }
    Ok(())
}

/// The entry of a pair: a fraction for each generator.
fn entry(
    alloc: Global,
    space: Space,
    generators: &[Generator],
    v: &Generator,
    w: &Generator,
) -> Result<Vec<Ratio>, PolyFail>
    requires each { Every (IsGenerator space) generators.now }
    requires reduced { IsReduced field_entry column_before (fields_of generators.now) }
    requires closed { IsClosed space (fields_of generators.now) }
    requires v { IsGenerator space v.now }
    requires w { IsGenerator space w.now }
    requires pair { Contains (pairs_of (fields_of generators.now)) (field_of_generator v.now, field_of_generator w.now) }
    ensures entry { IfOk result (λ made.
        IsEntry space (fields_of generators.now) (field_of_generator v.now, field_of_generator w.now) made.items) }
    ensures fits { OnOk result (IsWorkWithin (BracketMakes space (field_of_generator v.now) (field_of_generator w.now))) }
    ensures past { IfErr result (λ fail. IsWorkCause fail (BracketMakes space (field_of_generator v.now) (field_of_generator w.now))) }
{
    space_is_small(space);
    let bracket = bracket_of_terms(alloc, space, v.parts.as_slice(), w.parts.as_slice())?;
    let terms = field_terms(alloc, &bracket)?;
    let mut ratios = Vec::with_capacity(alloc, generators.len())?;
    for generator in generators {
        ratios.push(coordinate(space, terms.as_slice(), generator))?;
    }
    Ok(ratios)
}
