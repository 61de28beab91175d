// The solutions that are read off the kept rows.
ghost use Rattle.std.specs.Prelude.{◌≡◌, ◌<◌, ◌≤◌, ◌++◌, map, unsigned_abs, MatchOption, IfOk, IfErr, OnOk, None};
ghost use Rattle.lie_math.specs.Limits.{number_limit, FitsNumber};
ghost use Rattle.lie_spans.specs.Bulks.{solution_bulks, NumbersMade};
ghost use Rattle.lie_spans.specs.KeptRows.{AreKept, ending_at};
ghost use Rattle.lie_spans.specs.Solutions.{last_multiple, solution_at, solution_row, solution_in};
ghost use Rattle.lie_rows.specs.Causes.{AreWithin, IsWorkCause};
ghost use Rattle.lie_rows.specs.Rows.{rows_of, AreEnds};

use crate::entry::{answer_of, common_multiple_of, is_zero, whole_of};
use crate::kept::{Kept, ending_at};
use crate::rows::push_primitive_part;
use lie_ring::{PastKind, PolyFail, Ring, Whole};
use std::alloc::Global;

/// The least common multiple of the last entries of the kept rows with an entry in a column; None exactly where it is past 2^127 - 1.
fn multiple_of(kept: &Kept, column: usize, columns: usize) -> Option<u128>
    requires inside { column < columns }
    requires kept_rows { AreKept columns (rows_of kept.now.rows.items) }
    requires ends { AreEnds (rows_of kept.now.rows.items) kept.now.ends.items }
    ensures { MatchOption result
        (number_limit ≤ last_multiple column (rows_of kept.now.rows.items))
        (λ found. (found ≡ last_multiple column (rows_of kept.now.rows.items)) × (found < number_limit)) }
{
    let mut found = 1;
    let mut left = kept.rows.len();
    while left > 0 {
        left -= 1;
        let row = &kept.rows[left];
        if !is_zero(&row[column]) {
            match common_multiple_of(row[kept.ends[left]].size(), found) {
                Some(multiple) => found = multiple,
                None => return None,
            }
        }
    }
    Some(found)
}

/// The entry in column j of the solution for a free column; None exactly where it is past 2^127 - 1.
fn solution_entry(
    kept: &Kept,
    column: usize,
    columns: usize,
    least: u128,
    j: usize,
) -> Option<Whole>
    requires column_inside { column < columns }
    requires j_inside { j < columns }
    requires kept_rows { AreKept columns (rows_of kept.now.rows.items) }
    requires ends { AreEnds (rows_of kept.now.rows.items) kept.now.ends.items }
    requires value { least ≡ last_multiple column (rows_of kept.now.rows.items) }
    requires small { least < number_limit }
    ensures { MatchOption result
        (number_limit ≤ unsigned_abs (solution_at column (rows_of kept.now.rows.items) j))
        (λ entry. (entry ≡ solution_at column (rows_of kept.now.rows.items) j)
        × FitsNumber (solution_at column (rows_of kept.now.rows.items) j)) }
{
    if j == column {
        return Some(whole_of(least));
    }
    match ending_at(kept, j) {
        None => Some(Whole::zero()),
        Some(i) => {
            let row = &kept.rows[i];
            answer_of(least, row[column], row[j])
        }
    }
}

/// The solution for a free column.
fn solution_row(
    alloc: Global,
    kept: &Kept,
    column: usize,
    columns: usize,
) -> Result<Vec<Whole>, PolyFail>
    requires inside { column < columns }
    requires kept_rows { AreKept columns (rows_of kept.now.rows.items) }
    requires ends { AreEnds (rows_of kept.now.rows.items) kept.now.ends.items }
    ensures items { IfOk result (λ made. made.items ≡ solution_row columns (rows_of kept.now.rows.items) column) }
    ensures fits { OnOk result (AreWithin (map unsigned_abs (solution_row columns (rows_of kept.now.rows.items) column))) }
    ensures cause { IfErr result (λ fail. IsWorkCause fail (NumbersMade
        (map unsigned_abs (solution_row columns (rows_of kept.now.rows.items) column)))) }
{
    let least = match multiple_of(kept, column, columns) {
        Some(least) => least,
        None => return Err(PolyFail::Past(PastKind::Coefficient)),
    };
    let mut out = Vec::new(alloc);
    for j in 0..columns {
        match solution_entry(kept, column, columns, least, j) {
            Some(entry) => out.push(entry)?,
            None => return Err(PolyFail::Past(PastKind::Coefficient)),
        }
    }
    Ok(out)
}

/// Appends the solution for a column divided by its content, and nothing where a kept row ends in the column.
pub fn push_solution(
    out: &mut Vec<Vec<Whole>>,
    alloc: Global,
    kept: &Kept,
    column: usize,
    columns: usize,
) -> Result<(), PolyFail>
    requires inside { column < columns }
    requires kept_rows { AreKept columns (rows_of kept.now.rows.items) }
    requires ends { AreEnds (rows_of kept.now.rows.items) kept.now.ends.items }
    ensures items { OnOk result (rows_of out.new.items ≡ rows_of out.old.items
        ++ solution_in columns (rows_of kept.now.rows.items) column (ending_at column (rows_of kept.now.rows.items))) }
    ensures fits { OnOk result (AreWithin
        (solution_bulks columns (rows_of kept.now.rows.items) column (ending_at column (rows_of kept.now.rows.items)))) }
    ensures cause { IfErr result (λ fail. IsWorkCause fail (NumbersMade
        (solution_bulks columns (rows_of kept.now.rows.items) column (ending_at column (rows_of kept.now.rows.items))))) }
{
    match ending_at(kept, column) {
        Some(_) => Ok(()),
        None => {
            let row = solution_row(alloc, kept, column, columns)?;
            push_primitive_part(out, alloc, row)?;
            Ok(())
        }
    }
}
