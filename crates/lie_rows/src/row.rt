// One row of whole numbers.
ghost use Rattle.std.specs.Prelude.{◌≡◌, ◌<◌, pos, int_lt, IfOk, IfErr, OnOk, length};
ghost use Rattle.lie_math.specs.Limits.{number_limit};
ghost use Rattle.lie_spans.specs.Bulks.{difference_bulks, NumbersMade};
ghost use Rattle.lie_spans.specs.Content.{row_content, divided_row};
ghost use Rattle.lie_spans.specs.Elimination.{row_difference, over_common, eliminated_row, pivot, negated_row, turned_row};
ghost use Rattle.lie_spans.specs.Rows.{entry};
ghost use Rattle.lie_rows.specs.Causes.{AreWithin, IsWorkCause};

use crate::entry::{common_divisor_of, difference_entry, exact_entry, is_zero, over_common};
use lie_bytes::NoMemory;
use lie_ring::{PastKind, PolyFail, Ring, Whole};
use std::alloc::Global;

/// The greatest common divisor of the entries.
pub fn content_of(row: &[Whole]) -> u128
    ensures value { result ≡ row_content row.now }
    ensures small { result < number_limit }
{
    let mut found = 0;
    let mut left = row.len();
    while left > 0 {
        left -= 1;
        found = common_divisor_of(row[left].size(), found);
    }
    found
}

fn divided_row(alloc: Global, row: &[Whole], by: u128) -> Result<Vec<Whole>, NoMemory>
    requires value { by ≡ row_content row.now }
    requires positive { 0 < by }
    requires small { by < number_limit }
    ensures { IfOk result (λ made. made.items ≡ divided_row by row.now) }
{
    let mut out = Vec::new(alloc);
    for entry in row {
        out.push(exact_entry(*entry, by))?;
    }
    Ok(out)
}

/// The row divided by its content, which isn't 0.
pub fn primitive_row(alloc: Global, row: Vec<Whole>, by: u128) -> Result<Vec<Whole>, NoMemory>
    requires value { by ≡ row_content row.items }
    requires positive { 0 < by }
    requires small { by < number_limit }
    ensures { IfOk result (λ made. made.items ≡ divided_row by row.items) }
{
    if by == 1 {
        return Ok(row);
    }
    divided_row(alloc, &row, by)
}

/// `a` times the row, minus `b` times the other one.
fn difference_of(
    alloc: Global,
    a: Whole,
    row: &[Whole],
    b: Whole,
    other: &[Whole],
) -> Result<Vec<Whole>, PolyFail>
    requires { length other.now ≡ length row.now }
    ensures items { IfOk result (λ made. made.items ≡ row_difference a b row.now other.now) }
    ensures fits { OnOk result (AreWithin (difference_bulks a b row.now other.now)) }
    ensures cause { IfErr result (λ fail. IsWorkCause fail (NumbersMade (difference_bulks a b row.now other.now))) }
{
    let mut out = Vec::new(alloc);
    for i in 0..row.len() {
        match difference_entry(a, row[i], b, other[i]) {
            Some(entry) => out.push(entry)?,
            None => return Err(PolyFail::Past(PastKind::Coefficient)),
        }
    }
    Ok(out)
}

/// The row with 0 in a column, by a pivot row; both have an entry there.
pub fn eliminated_row(
    alloc: Global,
    pivot: &[Whole],
    column: usize,
    row: &[Whole],
) -> Result<Vec<Whole>, PolyFail>
    requires inside { column < length pivot.now }
    requires pivot_entry { ¬ (entry pivot.now column ≡ pos 0) }
    requires row_entry { ¬ (entry row.now column ≡ pos 0) }
    requires lengths { length pivot.now ≡ length row.now }
    ensures items { IfOk result (λ made. made.items ≡ eliminated_row pivot.now column row.now) }
    ensures fits { OnOk result (AreWithin (difference_bulks
        (over_common (entry pivot.now column) (entry row.now column)) (over_common (entry row.now column) (entry pivot.now column))
        row.now pivot.now)) }
    ensures cause { IfErr result (λ fail. IsWorkCause fail (NumbersMade (difference_bulks
        (over_common (entry pivot.now column) (entry row.now column)) (over_common (entry row.now column) (entry pivot.now column))
        row.now pivot.now))) }
{
    let a = pivot[column];
    let b = row[column];
    difference_of(alloc, over_common(a, b), row, over_common(b, a), pivot)
}

/// An equal row.
pub fn copied_row(alloc: Global, row: &[Whole]) -> Result<Vec<Whole>, NoMemory>
    ensures { IfOk result (λ made. made.items ≡ row.now) }
{
    Ok(Vec::from_slice(alloc, row)?)
}

fn negated_row(alloc: Global, row: &[Whole]) -> Result<Vec<Whole>, NoMemory>
    ensures { IfOk result (λ made. made.items ≡ negated_row row.now) }
{
    let mut out = Vec::new(alloc);
    for entry in row {
        out.push(entry.neg())?;
    }
    Ok(out)
}

/// Whether the first entry that isn't 0 is negative.
fn is_turned_down(row: &[Whole]) -> bool
    ensures { result ≡ int_lt (entry row.now (pivot row.now)) (pos 0) }
{
    for entry in row {
        if !is_zero(entry) {
            return entry.get() < 0;
        }
    }
    false
}

/// The row or its negative, positive at the first entry that isn't 0.
pub fn turned_row(alloc: Global, row: Vec<Whole>) -> Result<Vec<Whole>, NoMemory>
    ensures { IfOk result (λ made. made.items ≡ turned_row row.items) }
{
    if is_turned_down(&row) {
        negated_row(alloc, &row)
    } else {
        Ok(row)
    }
}
