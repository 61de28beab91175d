// The sum of two polynomials, by one merge of their terms.
ghost use Rattle.std.specs.Prelude.{◌≡◌, ◌+◌, ◌<◌, ◌^◌, ◌++◌, [], pos, ◌+ℤ◌, unsigned_abs, IfOk, IfErr, OnOk};
ghost use Rattle.lie_math.specs.Monomial.{monomial_cmp, Monomial};
ghost use Rattle.lie_math.specs.Polynomial.{polynomial_of, ◌+ᴾ◌};
ghost use Rattle.lie_math.specs.Limits.{absolutes};
ghost use Rattle.lie_ring.specs.Causes.{IsCause};
ghost use Rattle.lie_ring.specs.Entries.{entries};
ghost use Rattle.lie_ring.specs.Firsts.{first_cmp};
ghost use Rattle.lie_poly.specs.Sorted.{IsSorted};
ghost use Rattle.lie_poly.specs.Tallies.{IsTold, with_term};
ghost use Rattle.lie_poly.specs.Failures.{IsFull, IsWideNumber};

use crate::tally::{MAX_COEFFICIENT, MAX_TERMS};
use lie_bytes::NoMemory;
use lie_ring::{Mono, PastKind, PolyFail, Ring};
use std::alloc::Global;
use std::cmp::Ordering;

/// The sum of two lists of terms in print order.
pub fn add_terms<C: Ring>(
    alloc: Global,
    left: &[(Mono, C)],
    right: &[(Mono, C)],
) -> Result<Vec<(Mono, C)>, PolyFail>
    requires left_sorted { IsSorted (entries C.value left.now) }
    requires right_sorted { IsSorted (entries C.value right.now) }
    ensures sum { IfOk result (λ v. IsTold C.value v.items
        (polynomial_of (entries C.value left.now) +ᴾ polynomial_of (entries C.value right.now))
        (polynomial_of (absolutes (entries C.value left.now)) +ᴾ polynomial_of (absolutes (entries C.value right.now)))) }
    ensures past { IfErr result (λ fail. IsCause fail
        (polynomial_of (absolutes (entries C.value left.now)) +ᴾ polynomial_of (absolutes (entries C.value right.now)))) }
{
    let mut out = Vec::new(alloc);
    let mut count = 0;
    let mut i = 0;
    let mut j = 0;
    while i < left.len() || j < right.len() {
        match compare_firsts(&left[i..], &right[j..]) {
            Ordering::Less => {
                let term = copy_of(alloc, &left[i])?;
                put(&mut out, &mut count, term)?;
                i += 1;
            }
            Ordering::Greater => {
                let term = copy_of(alloc, &right[j])?;
                put(&mut out, &mut count, term)?;
                j += 1;
            }
            Ordering::Equal => {
                let term = both(alloc, &left[i], &right[j])?;
                put(&mut out, &mut count, term)?;
                i += 1;
                j += 1;
            }
        }
    }
    Ok(out)
}

/// The order of the first monomials of two lists; an empty list has none, which is after all.
fn compare_firsts<C: Ring>(left: &[(Mono, C)], right: &[(Mono, C)]) -> Ordering
    ensures { result ≡ first_cmp (λ (x : Monomial × C) (y : Monomial × C). monomial_cmp x.0 y.0) left.now right.now }
{
    if left.len() == 0 {
        return Ordering::Greater;
    }
    if right.len() == 0 {
        return Ordering::Less;
    }
    left[0].0.compare(&right[0].0)
}

/// An equal term.
fn copy_of<C: Ring>(alloc: Global, term: &(Mono, C)) -> Result<(Mono, C), NoMemory>
    ensures mono { IfOk result (λ t. t.0 ≡ term.now.0) }
    ensures number { IfOk result (λ t. C.value t.1 ≡ C.value term.now.1) }
{
    let mono = term.0.copy(alloc)?;
    Ok((mono, term.1.copy()))
}

/// One term for two of the same monomial.
fn both<C: Ring>(alloc: Global, left: &(Mono, C), right: &(Mono, C)) -> Result<(Mono, C), PolyFail>
    ensures mono { IfOk result (λ t. t.0 ≡ left.now.0) }
    ensures number { IfOk result (λ t. C.value t.1 ≡ C.value left.now.1 +ℤ C.value right.now.1) }
    ensures within { OnOk result (unsigned_abs (C.value left.now.1) + unsigned_abs (C.value right.now.1) < 2 ^ 127) }
    ensures wide { IfErr result (λ fail. IsWideNumber fail (pos (unsigned_abs (C.value left.now.1) + unsigned_abs (C.value right.now.1)))) }
{
    if left.1.size() + right.1.size() > MAX_COEFFICIENT {
        return Err(PolyFail::Past(PastKind::Coefficient));
    }
    match left.1.add(&right.1) {
        Some(sum) => Ok((left.0.copy(alloc)?, sum)),
        None => Err(PolyFail::Past(PastKind::Coefficient)),
    }
}

/// Counts a term, and puts it behind others unless it is 0; there may be no more than there is room for.
fn put<C: Ring>(to: &mut Vec<(Mono, C)>, count: &mut usize, term: (Mono, C)) -> Result<(), PolyFail>
    ensures items { OnOk result (entries C.value to.new.items ≡ entries C.value to.old.items ++ with_term term.0 (C.value term.1) []) }
    ensures count { OnOk result (count.new ≡ count.old + 1) }
    ensures room { OnOk result (count.old < 1000000) }
    ensures full { IfErr result (λ fail. IsFull fail count.old) }
{
    if *count >= MAX_TERMS {
        return Err(PolyFail::Past(PastKind::Terms));
    }
    *count += 1;
    if term.1.size() == 0 {
        return Ok(());
    }
    to.push(term)?;
    Ok(())
}
