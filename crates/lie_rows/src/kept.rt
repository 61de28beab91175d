// The elimination from the last column to the first, by rows that are kept.
ghost use Rattle.std.specs.Prelude.{◌≡◌, ◌<◌, [], MatchOption, IfOk, IfErr, OnOk, length, Some, None};
ghost use Rattle.lie_spans.specs.Bulks.{lowered_in_bulks, lowered_bulks, kept_with_bulks, kept_bulks, NumbersMade};
ghost use Rattle.lie_spans.specs.Content.{nonzero_row};
ghost use Rattle.lie_spans.specs.KeptRows.{AreKept, last_column, ending_at, lowered_in, lowered_rows, kept_with, kept_rows};
ghost use Rattle.lie_spans.specs.Rows.{HaveLength};
ghost use Rattle.lie_rows.specs.Causes.{AreWithin, IsWorkCause};
ghost use Rattle.lie_rows.specs.Rows.{rows_of, row_at, AreEnds, AreLeftOver};

use crate::entry::is_zero;
use crate::row::{content_of, copied_row};
use crate::rows::{cleared_rows, first_with};
use lie_bytes::NoMemory;
use lie_ring::{PolyFail, Whole};
use std::alloc::Global;

/// The kept rows, and the last column of each.
#[derive(Drop)]
pub struct Kept {
    /// The rows in the order in which they were kept.
    pub rows: Vec<Vec<Whole>>,
    /// For each row the last column where it is not 0.
    pub ends: Vec<usize>,
}

/// The last column where the row is not 0.
fn last_column(row: &[Whole]) -> usize
    ensures { result ≡ last_column row.now }
{
    let mut left = row.len();
    while left > 0 {
        left -= 1;
        if !is_zero(&row[left]) {
            return left;
        }
    }
    0
}

/// The place of the kept row whose last column is this one.
pub fn ending_at(kept: &Kept, column: usize) -> Option<usize>
    requires { AreEnds (rows_of kept.now.rows.items) kept.now.ends.items }
    ensures { MatchOption result
        (ending_at column (rows_of kept.now.rows.items) ≡ None)
        (λ i. (i < length kept.now.rows.items)
        × (ending_at column (rows_of kept.now.rows.items) ≡ Some (row_at kept.now.rows.items i))) }
{
    let ends = kept.ends.as_slice();
    for i in 0..ends.len() {
        if ends[i] == column {
            return Some(i);
        }
    }
    None
}

/// The rows with 0 in a column, by the kept row that ends there; where there is none they stay as they are.
fn lowered_in(
    alloc: Global,
    column: usize,
    columns: usize,
    kept: &Kept,
    rows: Vec<Vec<Whole>>,
) -> Result<Vec<Vec<Whole>>, PolyFail>
    requires inside { column < columns }
    requires kept_rows { AreKept columns (rows_of kept.now.rows.items) }
    requires ends { AreEnds (rows_of kept.now.rows.items) kept.now.ends.items }
    requires lengths { HaveLength columns (rows_of rows.items) }
    ensures items { IfOk result (λ made.
        rows_of made.items ≡ lowered_in column (rows_of rows.items) (ending_at column (rows_of kept.now.rows.items))) }
    ensures fits { OnOk result (AreWithin
        (lowered_in_bulks column (rows_of rows.items) (ending_at column (rows_of kept.now.rows.items)))) }
    ensures cause { IfErr result (λ fail. IsWorkCause fail (NumbersMade
        (lowered_in_bulks column (rows_of rows.items) (ending_at column (rows_of kept.now.rows.items))))) }
{
    if first_with(&rows, column).is_none() {
        return Ok(rows);
    }
    match ending_at(kept, column) {
        Some(i) => {
            let pivots = kept.rows.as_slice();
            cleared_rows(alloc, &pivots[i], column, rows)
        }
        None => Ok(rows),
    }
}

/// A copy of the row in a list, and no row where it is zero.
#[tactic(auto, using(crate::proofs::RowLists::rows_of_append))]
fn copied_unless_zero(alloc: Global, row: &[Whole]) -> Result<Vec<Vec<Whole>>, NoMemory>
    ensures { IfOk result (λ made. rows_of made.items ≡ nonzero_row row.now) }
{
    let mut out = Vec::new(alloc);
    if content_of(row) != 0 {
        let copy = copied_row(alloc, row)?;
        out.push(copy)?;
    }
    Ok(out)
}

/// The row reduced by the kept rows, from the last column to the first; nothing where it becomes zero.
fn lowered_row(
    alloc: Global,
    columns: usize,
    kept: &Kept,
    row: &[Whole],
) -> Result<Vec<Vec<Whole>>, PolyFail>
    requires kept_rows { AreKept columns (rows_of kept.now.rows.items) }
    requires ends { AreEnds (rows_of kept.now.rows.items) kept.now.ends.items }
    requires length { length row.now ≡ columns }
    ensures items { IfOk result (λ made.
        rows_of made.items ≡ lowered_rows columns (rows_of kept.now.rows.items) (nonzero_row row.now)) }
    ensures fits { OnOk result (AreWithin (lowered_bulks columns (rows_of kept.now.rows.items) (nonzero_row row.now))) }
    ensures cause { IfErr result (λ fail. IsWorkCause fail (NumbersMade
        (lowered_bulks columns (rows_of kept.now.rows.items) (nonzero_row row.now)))) }
{
    let mut left = copied_unless_zero(alloc, row)?;
    let mut column = columns;
    while column > 0 {
        column -= 1;
        let next = lowered_in(alloc, column, columns, kept, left)?;
        left = next;
    }
    Ok(left)
}

/// Keeps the row that is left over, and reduces those before it by it, which keeps their last columns.
fn kept_with(
    alloc: Global,
    columns: usize,
    kept: Kept,
    left: Vec<Vec<Whole>>,
) -> Result<Kept, PolyFail>
    requires kept_rows { AreKept columns (rows_of kept.rows.items) }
    requires ends { AreEnds (rows_of kept.rows.items) kept.ends.items }
    requires left_over { AreLeftOver columns (rows_of kept.rows.items) (rows_of left.items) }
    ensures items { IfOk result (λ made. rows_of made.rows.items ≡ kept_with (rows_of kept.rows.items) (rows_of left.items)) }
    ensures ends { IfOk result (λ made. AreEnds (rows_of made.rows.items) made.ends.items) }
    ensures fits { OnOk result (AreWithin (kept_with_bulks (rows_of kept.rows.items) (rows_of left.items))) }
    ensures cause { IfErr result (λ fail. IsWorkCause fail (NumbersMade
        (kept_with_bulks (rows_of kept.rows.items) (rows_of left.items)))) }
{
    let mut left = left;
    if left.is_empty() {
        return Ok(kept);
    }
    let row = left.remove(0);
    let column = last_column(&row);
    let Kept { rows, mut ends } = kept;
    let mut rows = cleared_rows(alloc, &row, column, rows)?;
    rows.push(row)?;
    ends.push(column)?;
    Ok(Kept { rows, ends })
}

/// The kept rows of the elimination.
pub fn kept_rows(alloc: Global, rows: &[Vec<Whole>], columns: usize) -> Result<Kept, PolyFail>
    requires { HaveLength columns (rows_of rows.now) }
    ensures items { IfOk result (λ made. rows_of made.rows.items ≡ kept_rows columns [] (rows_of rows.now)) }
    ensures ends { IfOk result (λ made. AreEnds (rows_of made.rows.items) made.ends.items) }
    ensures fits { OnOk result (AreWithin (kept_bulks columns [] (rows_of rows.now))) }
    ensures cause { IfErr result (λ fail. IsWorkCause fail (NumbersMade (kept_bulks columns [] (rows_of rows.now)))) }
{
    let mut kept = Kept {
        rows: Vec::new(alloc),
        ends: Vec::new(alloc),
    };
    for row in rows {
        let left = lowered_row(alloc, columns, &kept, row)?;
        let next = kept_with(alloc, columns, kept, left)?;
        kept = next;
    }
    Ok(kept)
}
