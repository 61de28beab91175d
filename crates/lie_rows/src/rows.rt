// Lists of rows, and the clearing of a column.
ghost use Rattle.std.specs.Prelude.{◌≡◌, ◌<◌, ◌++◌, pos, MatchOption, IfOk, IfErr, OnOk, length, remove, Some, None};
ghost use Rattle.std.specs.List.{AllByRecursion as Every};
ghost use Rattle.lie_spans.specs.Bulks.{elimination_bulks, clearing_bulks, NumbersMade};
ghost use Rattle.lie_spans.specs.Content.{primitive_part, primitive_parts};
ghost use Rattle.lie_spans.specs.Elimination.{cleared_row, cleared_rows, first_with};
ghost use Rattle.lie_spans.specs.Rows.{entry, HaveLength};
ghost use Rattle.lie_rows.specs.Causes.{AreWithin, IsWorkCause};
ghost use Rattle.lie_rows.specs.Rows.{rows_of, row_at};

use crate::entry::is_zero;
use crate::row::{content_of, copied_row, eliminated_row, primitive_row};
use lie_bytes::NoMemory;
use lie_ring::{PolyFail, Whole};
use std::alloc::Global;

/// Appends the row divided by its content, and nothing where it is zero.
#[tactic(auto, using(crate::proofs::RowLists::rows_of_append))]
pub fn push_primitive_part(
    out: &mut Vec<Vec<Whole>>,
    alloc: Global,
    row: Vec<Whole>,
) -> Result<(), NoMemory>
    ensures { OnOk result (rows_of out.new.items ≡ rows_of out.old.items ++ primitive_part row.items) }
{
    let by = content_of(&row);
    if by == 0 {
        return Ok(());
    }
    out.push(primitive_row(alloc, row, by)?)?;
    Ok(())
}

/// The rows divided by their contents, without those that are zero.
pub fn primitive_parts(alloc: Global, rows: &[Vec<Whole>]) -> Result<Vec<Vec<Whole>>, NoMemory>
    ensures { IfOk result (λ made. rows_of made.items ≡ primitive_parts (rows_of rows.now)) }
{
    let mut out = Vec::new(alloc);
    for row in rows {
        let copy = copied_row(alloc, row)?;
        push_primitive_part(&mut out, alloc, copy)?;
    }
    Ok(out)
}

/// Appends the row with 0 in a column, by a pivot row that has an entry there. A row with 0 there is moved as it is.
#[tactic(auto, using(crate::proofs::RowLists::rows_of_append))]
fn push_cleared_row(
    out: &mut Vec<Vec<Whole>>,
    alloc: Global,
    pivot: &[Whole],
    column: usize,
    row: Vec<Whole>,
) -> Result<(), PolyFail>
    requires inside { column < length pivot.now }
    requires pivot_entry { ¬ (entry pivot.now column ≡ pos 0) }
    requires lengths { length pivot.now ≡ length row.items }
    ensures items { OnOk result (rows_of out.new.items ≡ rows_of out.old.items ++ cleared_row pivot.now column row.items) }
    ensures fits { OnOk result (AreWithin (elimination_bulks pivot.now column row.items)) }
    ensures cause { IfErr result (λ fail. IsWorkCause fail (NumbersMade (elimination_bulks pivot.now column row.items))) }
{
    if is_zero(&row[column]) {
        out.push(row)?;
        return Ok(());
    }
    let eliminated = eliminated_row(alloc, pivot, column, &row)?;
    push_primitive_part(out, alloc, eliminated)?;
    Ok(())
}

/// The rows with 0 in a column, by a pivot row that has an entry there.
pub fn cleared_rows(
    alloc: Global,
    pivot: &[Whole],
    column: usize,
    rows: Vec<Vec<Whole>>,
) -> Result<Vec<Vec<Whole>>, PolyFail>
    requires inside { column < length pivot.now }
    requires pivot_entry { ¬ (entry pivot.now column ≡ pos 0) }
    requires lengths { HaveLength (length pivot.now) (rows_of rows.items) }
    ensures items { IfOk result (λ made. rows_of made.items ≡ cleared_rows pivot.now column (rows_of rows.items)) }
    ensures fits { OnOk result (AreWithin (clearing_bulks pivot.now column (rows_of rows.items))) }
    ensures cause { IfErr result (λ fail. IsWorkCause fail (NumbersMade (clearing_bulks pivot.now column (rows_of rows.items)))) }
{
    let mut out = Vec::new(alloc);
    for row in rows {
        push_cleared_row(&mut out, alloc, pivot, column, row)?;
    }
    Ok(out)
}

/// The place of the first row with an entry in a column.
pub fn first_with(rows: &[Vec<Whole>], column: usize) -> Option<usize>
    requires { Every (λ r. column < length r) (rows_of rows.now) }
    ensures { MatchOption result
        (first_with column (rows_of rows.now) ≡ None)
        (λ i. (i < length rows.now)
        × (first_with column (rows_of rows.now) ≡ Some (row_at rows.now i, rows_of (remove rows.now i)))) }
{
    for (i, row) in rows.iter().enumerate() {
        if !is_zero(&row[column]) {
            return Some(i);
        }
    }
    None
}
