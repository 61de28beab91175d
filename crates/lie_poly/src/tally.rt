// Sums in the making: for each monomial the sum of its coefficients and of their absolute values.
ghost use Rattle.std.specs.Prelude.{◌≡◌, ◌+◌, ◌<◌, ◌≤◌, ◌^◌, ◌++◌, ◌∷◌, [], length, reverse, ◌+ℤ◌, unsigned_abs, IfOk, IfErr, OnOk};
ghost use Rattle.lie_ring.specs.Entries.{entries};
ghost use Rattle.lie_poly.specs.Tallies.{sums, without_zeros, with_term};
ghost use Rattle.lie_poly.specs.Failures.{IsFull, IsWide};

use lie_bytes::NoMemory;
use lie_ring::{Mono, PastKind, PolyFail, Ring};
use std::alloc::Global;

/// The greatest absolute value of a coefficient, in a bulk as in a sum.
pub const MAX_COEFFICIENT: u128 = i128::MAX as u128;

/// The greatest number of terms.
pub const MAX_TERMS: usize = 1_000_000;

/// A monomial with the sum of its coefficients so far, and their bulk: the sum of their absolute values.
///
/// Lists of tallies have the last monomial in print order first, so that the first is taken off the end.
#[derive(Drop)]
pub struct Tally<C: Ring> {
    pub mono: Mono,
    pub sum: C,
    pub bulk: u128,
}

impl<C: Ring> Tally<C> {
    /// One tally for two of the same monomial.
    pub fn plus(self, other: Tally<C>) -> Result<Tally<C>, PolyFail>
        requires covers { unsigned_abs (C.value self.sum) ≤ self.bulk }
        requires other_covers { unsigned_abs (C.value other.sum) ≤ other.bulk }
        requires fits { self.bulk < 2 ^ 127 }
        requires other_fits { other.bulk < 2 ^ 127 }
        ensures mono { IfOk result (λ t. t.mono ≡ self.mono) }
        ensures sum { IfOk result (λ t. C.value t.sum ≡ C.value self.sum +ℤ C.value other.sum) }
        ensures bulk { IfOk result (λ t. t.bulk ≡ self.bulk + other.bulk) }
        ensures within { OnOk result (self.bulk + other.bulk < 2 ^ 127) }
        ensures wide { IfErr result (λ fail. IsWide fail (self.bulk + other.bulk)) }
    {
        let bulk = self.bulk + other.bulk;
        if bulk > MAX_COEFFICIENT {
            return Err(PolyFail::Past(PastKind::Coefficient));
        }
        match self.sum.add(&other.sum) {
            Some(sum) => Ok(Tally {
                mono: self.mono,
                sum,
                bulk,
            }),
            None => Err(PolyFail::Past(PastKind::Coefficient)),
        }
    }
}

/// Puts a tally behind others, unless there are too many.
pub fn push<C: Ring>(to: &mut Vec<Tally<C>>, tally: Tally<C>) -> Result<(), PolyFail>
    ensures items { OnOk result (to.new.items ≡ to.old.items ++ tally ∷ []) }
    ensures room { OnOk result (length to.old.items < 1000000) }
    ensures full { IfErr result (λ fail. IsFull fail (length to.old.items)) }
{
    if to.len() >= MAX_TERMS {
        return Err(PolyFail::Past(PastKind::Terms));
    }
    to.push(tally)?;
    Ok(())
}

/// The terms of tallies: the sums that are not 0, in print order.
pub fn settle<C: Ring>(
    alloc: Global,
    mut tallies: Vec<Tally<C>>,
) -> Result<Vec<(Mono, C)>, NoMemory>
    ensures { IfOk result (λ v. entries C.value v.items ≡ without_zeros (sums C.value (reverse tallies.items))) }
{
    let mut out = Vec::new(alloc);
    while let Some(tally) = tallies.pop() {
        push_unless_zero(&mut out, tally)?;
    }
    Ok(out)
}

/// Puts the term of a tally behind others, unless its sum is 0.
fn push_unless_zero<C: Ring>(out: &mut Vec<(Mono, C)>, tally: Tally<C>) -> Result<(), NoMemory>
    ensures { OnOk result (entries C.value out.new.items ≡ entries C.value out.old.items ++ with_term tally.mono (C.value tally.sum) []) }
{
    if tally.sum.size() == 0 {
        return Ok(());
    }
    out.push((tally.mono, tally.sum))?;
    Ok(())
}
