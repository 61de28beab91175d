// Fields that are read off rows.
ghost use Rattle.std.specs.Prelude.{◌≡◌, ◌≤◌, ◌∷◌, [], ◌++◌, map, length, IfOk, OnOk};
ghost use Rattle.lie_math.specs.Polynomial.{polynomial_of};
ghost use Rattle.lie_systems.specs.Works.{greatest_column_count};
ghost use Rattle.lie_spans.specs.FieldRows.{row_terms, field_of_row};
ghost use Rattle.lie_spans.specs.Fields.{column_before};
ghost use Rattle.lie_spans.specs.Rows.{HaveLength};
ghost use Rattle.lie_spans.specs.Spans.{EveryTwo};
ghost use Rattle.lie_rows.specs.Rows.{rows_of};
ghost use Rattle.lie_algebra.specs.ColumnLists.{nonzero_row_terms, AreLowTerms};

use crate::column::Column;
use lie_bytes::NoMemory;
use lie_jet::{Field, JetPoly};
use lie_ring::{Mono, Ring, Whole};
use lie_system::sum_within_limits;
use std::alloc::Global;

/// Puts the term of a row in a column behind others, where it is of the component and not 0.
fn push_number(
    list: &mut Vec<(Mono, Whole)>,
    alloc: Global,
    component: u8,
    column: &Column,
    number: Whole,
) -> Result<(), NoMemory>
    ensures terms { OnOk result (list.new.items ≡ list.old.items ++ nonzero_row_terms component (column.now ∷ []) (number ∷ [])) }
    ensures fits { OnOk result (AreLowTerms list.old.items → AreLowTerms list.new.items) }
{
    if column.component() != component {
        return Ok(());
    }
    if number.size() == 0 {
        return Ok(());
    }
    let mono = column.mono().copy(alloc)?;
    list.push((mono, number))?;
    Ok(())
}

/// The terms of a row in one component, without those that are 0.
fn terms_in(
    alloc: Global,
    component: u8,
    columns: &[Column],
    row: &[Whole],
) -> Result<Vec<(Mono, Whole)>, NoMemory>
    requires { length row.now ≡ length columns.now }
    ensures terms { IfOk result (λ list. list.items ≡ nonzero_row_terms component columns.now row.now) }
    ensures fits { IfOk result (λ list. AreLowTerms list.items) }
{
    let mut list = Vec::new(alloc);
    for i in 0..row.len() {
        push_number(&mut list, alloc, component, &columns[i], row[i])?;
    }
    Ok(list)
}

/// One component of the field of a row.
fn part_in(
    alloc: Global,
    component: u8,
    columns: &[Column],
    row: &[Whole],
) -> Result<JetPoly, NoMemory>
    requires length { length row.now ≡ length columns.now }
    requires rising { EveryTwo column_before columns.now }
    requires few { length columns.now ≤ greatest_column_count }
    ensures { IfOk result (λ part. part ≡ polynomial_of (row_terms component columns.now row.now)) }
{
    let list = terms_in(alloc, component, columns, row)?;
    let part = sum_within_limits(alloc, list.as_slice())?;
    Ok(part)
}

/// The field of a row, with so many components.
fn field_of(alloc: Global, count: u8, columns: &[Column], row: &[Whole]) -> Result<Field, NoMemory>
    requires length { length row.now ≡ length columns.now }
    requires rising { EveryTwo column_before columns.now }
    requires few { length columns.now ≤ greatest_column_count }
    ensures { IfOk result (λ field. field ≡ field_of_row count columns.now row.now) }
{
    let mut parts = Vec::new(alloc);
    for component in 0..count {
        let part = part_in(alloc, component, columns, row)?;
        parts.push(part)?;
    }
    Ok(Field::new(1, parts))
}

/// The fields of rows, with so many components.
pub fn fields_of(
    alloc: Global,
    count: u8,
    columns: &[Column],
    rows: &[Vec<Whole>],
) -> Result<Vec<Field>, NoMemory>
    requires lengths { HaveLength (length columns.now) (rows_of rows.now) }
    requires rising { EveryTwo column_before columns.now }
    requires few { length columns.now ≤ greatest_column_count }
    ensures { IfOk result (λ fields. fields.items ≡ map (field_of_row count columns.now) (rows_of rows.now)) }
{
    let mut fields = Vec::new(alloc);
    for row in rows {
        let field = field_of(alloc, count, columns, row)?;
        fields.push(field)?;
    }
    Ok(fields)
}
