// The columns of a general form.
ghost use Rattle.std.specs.Prelude.{◌≡◌, ◌≤◌, ◌<◌, ◌∷◌, [], ◌++◌, length, MatchResult, IfOk, IfErr, OnOk};
ghost use Rattle.std.specs.List.{AllByRecursion as Every, Contains};
ghost use Rattle.std.specs.List.Sorted.{IsStrictlySortedBy};
ghost use Rattle.lie_math.specs.Limits.{HasLowExponents};
ghost use Rattle.lie_systems.specs.Works.{greatest_column_count};
ghost use Rattle.lie_lin.specs.EquationLists.{IsInsertionPoint};
ghost use Rattle.lie_spans.specs.Fields.{column_cmp};
ghost use Rattle.lie_algebra.specs.ColumnLists.{term_columns, form_columns, listed_columns, AreColumnsOf, IsColumnsCause};

use crate::column::Column;
use lie_bytes::NoMemory;
use lie_jet::JetPoly;
use lie_lin::LinEq;
use lie_ring::{Mono, PastKind, PolyFail, Polynomial, Whole};
use std::alloc::Global;

/// The greatest number of columns of a basis.
const MAX_COLUMNS: usize = 1000;

/// The place of a column; as an error the place where it has to be put.
fn place_of(columns: &[Column], column: &Column) -> Result<usize, usize>
    requires { IsStrictlySortedBy column_cmp columns.now }
    ensures { MatchResult result (λ i. Contains columns.now column.now) (IsInsertionPoint column_cmp column.now columns.now) }
{
    columns.binary_search_by(|other| other.compare(column))
}

/// Puts a column into its place among others in order, unless it is there. `Past(Width)` comes exactly where it would be one too many.
pub fn insert_column(columns: &mut Vec<Column>, column: Column) -> Result<(), PolyFail>
    requires sorted { IsStrictlySortedBy column_cmp columns.old.items }
    requires few { length columns.old.items ≤ greatest_column_count }
    ensures inserted { OnOk result (AreColumnsOf (columns.old.items ++ column ∷ []) columns.new.items) }
    ensures few { OnOk result (length columns.new.items ≤ greatest_column_count) }
    ensures cause { IfErr result (λ fail. IsColumnsCause fail (columns.old.items ++ column ∷ [])) }
{
    match place_of(columns.as_slice(), &column) {
        Ok(_) => Ok(()),
        Err(place) => insert_at(columns, place, column),
    }
}

/// Puts a column that is not there into its place among others in order.
fn insert_at(columns: &mut Vec<Column>, place: usize, column: Column) -> Result<(), PolyFail>
    requires sorted { IsStrictlySortedBy column_cmp columns.old.items }
    requires few { length columns.old.items ≤ greatest_column_count }
    requires place { IsInsertionPoint column_cmp column columns.old.items place }
    ensures inserted { OnOk result (AreColumnsOf (columns.old.items ++ column ∷ []) columns.new.items) }
    ensures few { OnOk result (length columns.new.items ≤ greatest_column_count) }
    ensures cause { IfErr result (λ fail. IsColumnsCause fail (columns.old.items ++ column ∷ [])) }
{
    if columns.len() >= MAX_COLUMNS {
        return Err(PolyFail::Past(PastKind::Width));
    }
    columns.insert(place, column)?;
    Ok(())
}

/// The terms of a coefficient, whose exponents are at most 65,535.
fn low_terms(alloc: Global, coefficient: &JetPoly) -> Result<Vec<(Mono, Whole)>, NoMemory>
    ensures list { IfOk result (λ terms. terms.items ≡ coefficient.now.list) }
    ensures low { IfOk result (λ terms. Every (λ t. HasLowExponents t.0) terms.items) }
{
    coefficient.is_within_limits();
    let terms = coefficient.terms(alloc)?;
    Ok(terms)
}

/// Puts the columns of the terms of a coefficient among others in order.
fn insert_terms(
    columns: &mut Vec<Column>,
    alloc: Global,
    component: u8,
    coefficient: &JetPoly,
) -> Result<(), PolyFail>
    requires sorted { IsStrictlySortedBy column_cmp columns.old.items }
    requires few { length columns.old.items ≤ greatest_column_count }
    ensures inserted { OnOk result (AreColumnsOf (columns.old.items ++ term_columns component coefficient.now.list) columns.new.items) }
    ensures few { OnOk result (length columns.new.items ≤ greatest_column_count) }
    ensures cause { IfErr result (λ fail. IsColumnsCause fail (columns.old.items ++ term_columns component coefficient.now.list)) }
{
    let terms = low_terms(alloc, coefficient)?;
    for (mono, _) in terms {
        insert_column(columns, Column::new(component, mono))?;
    }
    Ok(())
}

/// Puts the columns of a form among others in order.
fn insert_form(
    columns: &mut Vec<Column>,
    alloc: Global,
    component: u8,
    form: &LinEq,
) -> Result<(), PolyFail>
    requires sorted { IsStrictlySortedBy column_cmp columns.old.items }
    requires few { length columns.old.items ≤ greatest_column_count }
    ensures inserted { OnOk result (AreColumnsOf (columns.old.items ++ form_columns component form.now) columns.new.items) }
    ensures few { OnOk result (length columns.new.items ≤ greatest_column_count) }
    ensures cause { IfErr result (λ fail. IsColumnsCause fail (columns.old.items ++ form_columns component form.now)) }
{
    for term in form.terms() {
        insert_terms(columns, alloc, component, &term.1)?;
    }
    Ok(())
}

/// The columns of forms for the components 0 and so on, in order, each once. `Past(Width)` comes exactly where there are more than 1,000.
pub fn columns_of(alloc: Global, general: &[LinEq]) -> Result<Vec<Column>, PolyFail>
    requires { length general.now < 256 }
    ensures columns { IfOk result (λ made. AreColumnsOf (listed_columns 0 general.now) made.items) }
    ensures few { IfOk result (λ made. length made.items ≤ greatest_column_count) }
    ensures cause { IfErr result (λ fail. IsColumnsCause fail (listed_columns 0 general.now)) }
{
    let mut columns = Vec::new(alloc);
    let mut component: u8 = 0;
    for form in general {
        insert_form(&mut columns, alloc, component, form)?;
        component += 1;
    }
    Ok(columns)
}
