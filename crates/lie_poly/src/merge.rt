// The sum of two lists of tallies.
ghost use Rattle.std.specs.Prelude.{◌≡◌, ◌<◌, ◌++◌, ◌∷◌, [], length, reverse, IfOk, IfErr};
ghost use Rattle.lie_math.specs.Polynomial.{◌+ᴾ◌};
ghost use Rattle.lie_ring.specs.Causes.{IsCause};
ghost use Rattle.lie_poly.specs.Tallies.{sum_of, bulk_of, IsTallied, Tells, firsts};

use crate::tally::{Tally, push};
use lie_ring::{PolyFail, Ring};
use std::alloc::Global;
use std::cmp::Ordering;

/// The sum of two lists of tallies.
pub fn merge<C: Ring>(
    alloc: Global,
    mut left: Vec<Tally<C>>,
    mut right: Vec<Tally<C>>,
) -> Result<Vec<Tally<C>>, PolyFail>
    requires left_tallied { IsTallied C.value (reverse left.items) }
    requires right_tallied { IsTallied C.value (reverse right.items) }
    ensures sum { IfOk result (λ v. Tells C.value (reverse v.items)
        (sum_of C.value (reverse left.items) +ᴾ sum_of C.value (reverse right.items))
        (bulk_of (reverse left.items) +ᴾ bulk_of (reverse right.items))) }
    ensures past { IfErr result (λ fail. IsCause fail (bulk_of (reverse left.items) +ᴾ bulk_of (reverse right.items))) }
{
    let mut out = Vec::new(alloc);
    while left.len() > 0 || right.len() > 0 {
        match compare_firsts(left.as_slice(), right.as_slice()) {
            Ordering::Less => {
                let first = take_first(&mut left);
                push(&mut out, first)?;
            }
            Ordering::Greater => {
                let first = take_first(&mut right);
                push(&mut out, first)?;
            }
            Ordering::Equal => {
                let first = take_first(&mut left);
                let second = take_first(&mut right);
                let both = first.plus(second)?;
                push(&mut out, both)?;
            }
        }
    }
    out.reverse();
    Ok(out)
}

/// The order of the first monomials of two lists; an empty list has none, which is after all.
fn compare_firsts<C: Ring>(left: &[Tally<C>], right: &[Tally<C>]) -> Ordering
    ensures { result ≡ firsts (reverse left.now) (reverse right.now) }
{
    if left.len() == 0 {
        return Ordering::Greater;
    }
    if right.len() == 0 {
        return Ordering::Less;
    }
    let first = &left[left.len() - 1];
    let second = &right[right.len() - 1];
    first.mono.compare(&second.mono)
}

/// Takes the first tally, which is the last in the list.
fn take_first<C: Ring>(from: &mut Vec<Tally<C>>) -> Tally<C>
    requires { 0 < length from.old.items }
    ensures { from.old.items ≡ from.new.items ++ result ∷ [] }
{
    match from.pop() {
        Some(tally) => tally,
        None => unreachable!(),
    }
}
