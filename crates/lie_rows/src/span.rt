// The reduced basis of what rows span.
ghost use Rattle.std.specs.Prelude.{◌≡◌, ◌<◌, IfOk, IfErr, OnOk};
ghost use Rattle.lie_spans.specs.Bulks.{column_bulks, NumbersMade, BasisMakes};
ghost use Rattle.lie_spans.specs.Elimination.{first_with, column_cleared, turned_rows};
ghost use Rattle.lie_spans.specs.Rows.{entry, HaveLength, IsReducedBasis};
ghost use Rattle.lie_spans.specs.Spans.{IsSpanned};
ghost use Rattle.lie_systems.specs.Works.{IsWorkWithin};
ghost use Rattle.lie_rows.specs.Causes.{AreWithin, IsWorkCause};
ghost use Rattle.lie_rows.specs.Rows.{rows_of};

use crate::row::turned_row;
use crate::rows::{cleared_rows, first_with, primitive_parts};
use lie_bytes::NoMemory;
use lie_ring::{PolyFail, Whole};
use std::alloc::Global;

/// The rows of an elimination: those that have a pivot, and the others.
#[derive(Drop)]
struct Elimination {
    pivots: Vec<Vec<Whole>>,
    others: Vec<Vec<Whole>>,
}

/// One column of the elimination.
fn clear_column(
    alloc: Global,
    column: usize,
    columns: usize,
    rows: Elimination,
) -> Result<Elimination, PolyFail>
    requires inside { column < columns }
    requires pivot_lengths { HaveLength columns (rows_of rows.pivots.items) }
    requires other_lengths { HaveLength columns (rows_of rows.others.items) }
    ensures items { IfOk result (λ made. (rows_of made.pivots.items, rows_of made.others.items)
        ≡ column_cleared column (rows_of rows.pivots.items) (rows_of rows.others.items)
        (first_with column (rows_of rows.others.items))) }
    ensures fits { OnOk result (AreWithin
        (column_bulks column (rows_of rows.pivots.items) (first_with column (rows_of rows.others.items)))) }
    ensures cause { IfErr result (λ fail. IsWorkCause fail (NumbersMade
        (column_bulks column (rows_of rows.pivots.items) (first_with column (rows_of rows.others.items))))) }
{
    let Elimination { pivots, mut others } = rows;
    let i = match first_with(&others, column) {
        Some(i) => i,
        None => return Ok(Elimination { pivots, others }),
    };
    let pivot = others.remove(i);
    let mut pivots = cleared_rows(alloc, &pivot, column, pivots)?;
    let others = cleared_rows(alloc, &pivot, column, others)?;
    pivots.push(pivot)?;
    Ok(Elimination { pivots, others })
}

/// Each row or its negative, positive at its pivot.
fn turned_rows(alloc: Global, rows: Vec<Vec<Whole>>) -> Result<Vec<Vec<Whole>>, NoMemory>
    ensures { IfOk result (λ made. rows_of made.items ≡ turned_rows (rows_of rows.items)) }
{
    let mut out = Vec::new(alloc);
    for row in rows {
        let turned = turned_row(alloc, row)?;
        out.push(turned)?;
    }
    Ok(out)
}

/// The reduced basis of what the rows span over the rational numbers. Past exactly where the absolute values of an elimination of one row
/// by another pass 2^127 - 1. The rows have length `columns`.
pub fn span_basis(
    alloc: Global,
    rows: &[Vec<Whole>],
    columns: usize,
) -> Result<Vec<Vec<Whole>>, PolyFail>
    requires { HaveLength columns (rows_of rows.now) }
    ensures basis { IfOk result (λ made.
        IsReducedBasis columns (λ w. IsSpanned entry (rows_of rows.now) (entry w)) (rows_of made.items)) }
    ensures fits { OnOk result (IsWorkWithin (BasisMakes columns (rows_of rows.now))) }
    ensures cause { IfErr result (λ fail. IsWorkCause fail (BasisMakes columns (rows_of rows.now))) }
{
    let pivots = Vec::new(alloc);
    let others = primitive_parts(alloc, rows)?;
    let mut left = Elimination { pivots, others };
    for column in 0..columns {
        let next = clear_column(alloc, column, columns, left)?;
        left = next;
    }
    let basis = turned_rows(alloc, left.pivots)?;
    Ok(basis)
}
