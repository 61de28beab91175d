// Reduced bases of what rows span and of what they take to 0.
use crate::{have_length, kernel_basis, span_basis};
use lie_bytes::NoMemory;
use lie_ring::{PastKind, PolyFail, Ring, Whole};
use std::alloc::Global;
use std::test::Fail;

const BIG: i128 = 1 << 125;

fn whole(value: i128) -> Whole {
    match Whole::new(value) {
        Some(whole) => whole,
        None => Whole::zero(),
    }
}

fn made(alloc: Global, lists: &[&[i128]]) -> Result<Vec<Vec<Whole>>, NoMemory> {
    let mut rows = Vec::new(alloc);
    for list in lists {
        let mut row = Vec::new(alloc);
        for value in *list {
            row.push(whole(*value))?;
        }
        rows.push(row)?;
    }
    Ok(rows)
}

fn is(row: &[Whole], wanted: &[i128]) -> bool {
    if row.len() != wanted.len() {
        return false;
    }
    for k in 0..row.len() {
        if row[k].get() != wanted[k] {
            return false;
        }
    }
    true
}

fn are(rows: &[Vec<Whole>], wanted: &[&[i128]]) -> bool {
    if rows.len() != wanted.len() {
        return false;
    }
    for i in 0..rows.len() {
        if !is(&rows[i], wanted[i]) {
            return false;
        }
    }
    true
}

/// Whether the rows have the lengths, and what they span has this reduced basis.
fn spans(alloc: Global, columns: usize, lists: &[&[i128]], wanted: &[&[i128]]) -> bool {
    let rows = match made(alloc, lists) {
        Ok(rows) => rows,
        Err(NoMemory) => return false,
    };
    if !have_length(&rows, columns) {
        return false;
    }
    match span_basis(alloc, &rows, columns) {
        Ok(basis) => are(&basis, wanted),
        Err(_) => false,
    }
}

/// Whether the rows have the lengths, and what they take to 0 has this reduced basis.
fn takes(alloc: Global, columns: usize, lists: &[&[i128]], wanted: &[&[i128]]) -> bool {
    let rows = match made(alloc, lists) {
        Ok(rows) => rows,
        Err(NoMemory) => return false,
    };
    if !have_length(&rows, columns) {
        return false;
    }
    match kernel_basis(alloc, &rows, columns) {
        Ok(basis) => are(&basis, wanted),
        Err(_) => false,
    }
}

/// Whether the span and the kernel of the rows are past the numbers.
fn are_past(alloc: Global, columns: usize, lists: &[&[i128]]) -> (bool, bool) {
    let rows = match made(alloc, lists) {
        Ok(rows) => rows,
        Err(NoMemory) => return (false, false),
    };
    if !have_length(&rows, columns) {
        return (false, false);
    }
    (
        is_past(span_basis(alloc, &rows, columns)),
        is_past(kernel_basis(alloc, &rows, columns)),
    )
}

fn is_past(answer: Result<Vec<Vec<Whole>>, PolyFail>) -> bool {
    matches!(answer, Err(PolyFail::Past(PastKind::Coefficient)))
}

#[test]
fn spans_have_reduced_bases(rt: HostRuntime) {
    let alloc = rt.alloc();
    assert!(rt; spans(alloc, 2, &[&[2, 4], &[1, 3]], &[&[1, 0], &[0, 1]]));
    assert!(rt; spans(alloc, 2, &[&[0, 0]], &[]));
    assert!(rt; spans(alloc, 2, &[&[-2, -4], &[3, 6]], &[&[1, 2]]));
    assert!(rt;
        spans(
            alloc,
            3,
            &[&[0, 2, 4], &[3, 1, 1], &[3, 3, 5]],
            &[&[3, 0, -1], &[0, 1, 2]]
        )
    );
    assert!(rt;
        spans(
            alloc,
            5,
            &[
                &[0, 0, -1, -1, 0],
                &[-2, 0, -3, 0, 0],
                &[-1, -2, 1, 2, -3],
                &[3, 6, -5, -8, 9]
            ],
            &[&[2, 0, 0, -3, 0], &[0, 4, 0, 1, 6], &[0, 0, 1, 1, 0]]
        )
    );
}

#[test]
fn kernels_have_reduced_bases(rt: HostRuntime) {
    let alloc = rt.alloc();
    assert!(rt; takes(alloc, 3, &[&[1, 2, 0]], &[&[2, -1, 0], &[0, 0, 1]]));
    assert!(rt; takes(alloc, 2, &[], &[&[1, 0], &[0, 1]]));
    assert!(rt; takes(alloc, 2, &[&[0, 0]], &[&[1, 0], &[0, 1]]));
    assert!(rt;
        takes(
            alloc,
            3,
            &[&[1, 1, 1], &[2, 2, 2]],
            &[&[1, 0, -1], &[0, 1, -1]]
        )
    );
    assert!(rt; takes(alloc, 3, &[&[6, 0, 4], &[0, 9, 6]], &[&[2, 2, -3]]));
    assert!(rt;
        takes(
            alloc,
            5,
            &[
                &[-1, -3, -5, 0, 0],
                &[0, -5, 2, 0, 0],
                &[-4, -2, 4, 0, -7],
                &[1, 0, 0, -6, -2]
            ],
            &[&[186, -12, -30, 71, -120]]
        )
    );
}

// (BIG, BIG) and (1, 3) are within the numbers only where the first row is divided by its content before.
#[test]
fn only_rows_of_spans_are_divided_before(rt: HostRuntime) {
    let alloc = rt.alloc();
    assert!(rt; are_past(alloc, 2, &[&[BIG, BIG], &[1, 3]]) == (false, true));
}

// BIG times 3 and BIG - 1 are 2^127 - 1 together.
#[test]
fn elimination_ends_at_127_bits(rt: HostRuntime) {
    let alloc = rt.alloc();
    assert!(rt; spans(alloc, 2, &[&[BIG, BIG - 1], &[1, 3]], &[&[1, 0], &[0, 1]]));
    assert!(rt; are_past(alloc, 2, &[&[BIG, BIG - 1], &[1, 4]]) == (true, true));
}

#[test]
fn solutions_end_at_127_bits(rt: HostRuntime) {
    let alloc = rt.alloc();
    let half: i128 = 1 << 63;
    assert!(rt;
        takes(
            alloc,
            3,
            &[&[1, half, 0], &[1, 0, half + 1]],
            &[&[half * (half + 1), -half - 1, -half]]
        )
    );
    assert!(rt; are_past(alloc, 3, &[&[1, 2 * half, 0], &[1, 0, 2 * half + 1]]) == (false, true));
}

// A row with 0 in the column is not eliminated, and stays as it is.
#[test]
fn row_without_entry_is_left(rt: HostRuntime) {
    let alloc = rt.alloc();
    assert!(rt; takes(alloc, 3, &[&[BIG, BIG, 0], &[0, 0, 7]], &[&[1, -1, 0]]));
}

#[test]
fn lengths_are_told(rt: HostRuntime) -> Result<(), Fail> {
    let alloc = rt.alloc();
    let rows = made(alloc, &[&[1, 2], &[3, 4]]).map_err(|_| "memory")?;
    assert!(rt; have_length(&rows, 2));
    assert!(rt; !have_length(&rows, 3));
    Ok(())
}
