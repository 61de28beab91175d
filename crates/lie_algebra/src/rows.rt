// The rows of the unknowns of a finite system.
ghost use Rattle.std.specs.Prelude.{◌≡◌, ◌<◌, [], map, length, slice_index_or, ℤ, MatchResult, IfOk};
ghost use Rattle.std.specs.List.{AllByRecursion as Every};
ghost use Rattle.lie_math.specs.FiniteSum as finite;
ghost use Rattle.lie_math.specs.FiniteSum.{IsCanonical};
ghost use Rattle.lie_math.specs.LinearForm.{forms};
ghost use Rattle.lie_math.specs.Monomial.{Monomial, monomial_cmp};
ghost use Rattle.lie_math.specs.Polynomial.{coefficient, polynomial_of, terms as polynomial_terms};
ghost use Rattle.lie_lin.specs.EquationLists.{IsInsertionPoint};
ghost use Rattle.lie_rows.specs.Rows.{rows_of};
ghost use Rattle.lie_algebra.specs.ColumnLists.{unknown_coefficient, unknown_entry};
ghost use Rattle.lie_algebra.specs.GeneralColumns.{unknown_rows};

use crate::column::Column;
use crate::unknowns::plain;
use lie_bytes::NoMemory;
use lie_jet::compare_derivatives;
use lie_lin::{LinEq, LinSystem};
use lie_ring::{Mono, Polynomial, Ring, Whole};
use std::alloc::Global;

/// The terms of the coefficient of an unknown in the form of one component.
#[derive(Drop)]
struct Part {
    component: u8,
    terms: Vec<(Mono, Whole)>,
}

/// The place of a monomial among terms in print order; as an error the place where it would stand.
fn place_in(list: &[(Mono, Whole)], mono: &Mono) -> Result<usize, usize>
    requires { IsCanonical polynomial_terms list.now }
    ensures { MatchResult result
        (λ i. (i < length list.now) × ((d : Monomial × ℤ) → (slice_index_or list.now i d).0 ≡ mono.now))
        (IsInsertionPoint monomial_cmp mono.now (map (λ e. e.0) list.now)) }
{
    list.binary_search_by(|term| term.0.compare(mono))
}

/// The number of a monomial among terms in print order, 0 where it is not there.
pub fn number_at(list: &[(Mono, Whole)], mono: &Mono) -> Whole
    requires { IsCanonical polynomial_terms list.now }
    ensures { result ≡ coefficient (polynomial_of list.now) mono.now }
{
    match place_in(list, mono) {
        Ok(place) => list[place].1,
        Err(_) => Whole::zero(),
    }
}

/// The terms of the coefficient of an unknown without a derivative, in print order.
fn terms_of(alloc: Global, form: &LinEq, unknown: u32) -> Result<Vec<(Mono, Whole)>, NoMemory>
    ensures { IfOk result (λ list. list.items ≡ (finite.value forms form.now (record { unknown = unknown; counts = [] })).list) }
{
    let der = plain(unknown);
    for term in form.terms() {
        if compare_derivatives(&der, &term.0).is_eq() {
            let list = term.1.terms(alloc)?;
            return Ok(list);
        }
    }
    Ok(Vec::new(alloc))
}

/// The part of one component.
fn part_of(alloc: Global, general: &[LinEq], unknown: u32, component: u8) -> Result<Part, NoMemory>
    requires { component < length general.now }
    ensures component { IfOk result (λ part. part.component ≡ component) }
    ensures terms { IfOk result (λ part. part.terms.items ≡ (unknown_coefficient general.now unknown component).list) }
{
    let terms = terms_of(alloc, &general[usize::from(component)], unknown)?;
    Ok(Part { component, terms })
}

/// The part of a component, which is the given one where it is of that component.
fn part_at(
    alloc: Global,
    general: &[LinEq],
    unknown: u32,
    component: u8,
    part: Part,
) -> Result<Part, NoMemory>
    requires inside { component < length general.now }
    requires part { part.terms.items ≡ (unknown_coefficient general.now unknown part.component).list }
    ensures component { IfOk result (λ made. made.component ≡ component) }
    ensures terms { IfOk result (λ made. made.terms.items ≡ (unknown_coefficient general.now unknown component).list) }
{
    if part.component == component {
        return Ok(part);
    }
    part_of(alloc, general, unknown, component)
}

/// The numbers of the field of one unknown in some columns.
fn unknown_row(
    alloc: Global,
    general: &[LinEq],
    unknown: u32,
    columns: &[Column],
) -> Result<Vec<Whole>, NoMemory>
    requires general { 0 < length general.now }
    requires inside { Every (λ k. k.0 < length general.now) columns.now }
    ensures { IfOk result (λ row. row.items ≡ map (unknown_entry general.now unknown) columns.now) }
{
    let mut row = Vec::new(alloc);
    let mut part = part_of(alloc, general, unknown, 0)?;
    for column in columns {
        let next = part_at(alloc, general, unknown, column.component(), part)?;
        part = next;
        row.push(number_at(part.terms.as_slice(), column.mono()))?;
    }
    Ok(row)
}

/// The rows of the unknowns of a system in some columns: for each unknown in order the field that the system gives for 1 in its place and
/// 0 in the place of all others.
pub fn unknown_rows(
    alloc: Global,
    system: &LinSystem,
    columns: &[Column],
) -> Result<Vec<Vec<Whole>>, NoMemory>
    requires general { 0 < length system.now.system.general }
    requires inside { Every (λ k. k.0 < length system.now.system.general) columns.now }
    ensures { IfOk result (λ rows. rows_of rows.items ≡ unknown_rows columns.now system.now.system) }
{
    let mut rows = Vec::new(alloc);
    for unknown in system.unknowns() {
        let row = unknown_row(alloc, system.general(), unknown.number, columns)?;
        rows.push(row)?;
    }
    Ok(rows)
}
