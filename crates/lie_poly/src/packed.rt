// Products of polynomials whose monomials are packed into words.
ghost use Rattle.std.specs.Prelude.{◌≡◌, ℕ, ◌+◌, ◌≤◌, ◌<◌, ◌^◌, ◌++◌, ◌∷◌, [], length, IfSome, ◌+ℤ◌, ◌*ℤ◌, unsigned_abs};
ghost use Rattle.std.specs.Ordering.{nat_cmp};
ghost use Rattle.lie_math.specs.Limits.{FitsNumber};
ghost use Rattle.lie_ring.specs.Firsts.{first_cmp};
ghost use Rattle.lie_poly.specs.declared.packed.Packed.{Packed as PackedSum};
ghost use Rattle.lie_poly.specs.Packed.{IsMerged, IsProduct};

use crate::tally::{MAX_COEFFICIENT, MAX_TERMS};
use lie_ring::Ring;
use std::alloc::Global;
use std::cmp::Ordering;

/// The word of a monomial with the sum of its coefficients so far, and their bulk: the sum of their absolute values.
#[derive(Drop)]
pub struct Packed<C: Ring> {
    pub word: u128,
    pub sum: C,
    pub bulk: u128,
}

/// The product of packed terms, unless it is past a limit or there is no memory.
pub fn multiply<C: Ring>(
    alloc: Global,
    left: &[(u128, C)],
    right: &[(u128, C)],
) -> Option<Vec<Packed<C>>>
    ensures { IfSome result (λ v. IsProduct C.value left.now right.now v.items) }
{
    if left.len() == 0 {
        return Some(Vec::new(alloc));
    }
    if left.len() == 1 {
        return times_term(alloc, &left[0], right);
    }
    let half = left.len() / 2;
    let first = multiply(alloc, &left[..half], right)?;
    let second = multiply(alloc, &left[half..], right)?;
    merge(alloc, first.as_slice(), second.as_slice())
}

/// One packed term times others.
fn times_term<C: Ring>(
    alloc: Global,
    factor: &(u128, C),
    terms: &[(u128, C)],
) -> Option<Vec<Packed<C>>>
    ensures { IfSome result (λ v. IsProduct C.value (factor.now ∷ []) terms.now v.items) }
{
    if factor.1.size() == 0 {
        return None;
    }
    let mut out = room_for(alloc, terms.len())?;
    for term in terms {
        let product = product_of(factor, term)?;
        put(&mut out, product)?;
    }
    Some(out)
}

/// The product of two packed terms.
fn product_of<C: Ring>(left: &(u128, C), right: &(u128, C)) -> Option<Packed<C>>
    ensures word { IfSome result (λ p. p.word ≡ left.now.0 + right.now.0) }
    ensures sum { IfSome result (λ p. C.value p.sum ≡ C.value left.now.1 *ℤ C.value right.now.1) }
    ensures bulk { IfSome result (λ p. p.bulk ≡ unsigned_abs (C.value left.now.1 *ℤ C.value right.now.1)) }
    ensures fits { IfSome result (λ p. FitsNumber (C.value left.now.1 *ℤ C.value right.now.1)) }
{
    let word = left.0.checked_add(right.0)?;
    let sum = left.1.mul(&right.1)?;
    let bulk = sum.size();
    Some(Packed { word, sum, bulk })
}

/// The sum of two lists of packed sums, the greatest words first.
fn merge<C: Ring>(alloc: Global, left: &[Packed<C>], right: &[Packed<C>]) -> Option<Vec<Packed<C>>>
    ensures { IfSome result (λ v. IsMerged C.value left.now right.now v.items) }
{
    let mut out = room_for(alloc, left.len().checked_add(right.len())?)?;
    let mut i = 0;
    let mut j = 0;
    while i < left.len() || j < right.len() {
        match compare_firsts(&left[i..], &right[j..]) {
            Ordering::Less => {
                put(&mut out, copy_of(&left[i]))?;
                i += 1;
            }
            Ordering::Greater => {
                put(&mut out, copy_of(&right[j]))?;
                j += 1;
            }
            Ordering::Equal => {
                let sum = both(&left[i], &right[j])?;
                put(&mut out, sum)?;
                i += 1;
                j += 1;
            }
        }
    }
    Some(out)
}

/// The order of the first words of two lists, the greater first; an empty list has none, which is after all.
fn compare_firsts<C: Ring>(left: &[Packed<C>], right: &[Packed<C>]) -> Ordering
    ensures { result ≡ first_cmp (λ (x : PackedSum C) (y : PackedSum C). nat_cmp y.word x.word) left.now right.now }
{
    if left.len() == 0 {
        return Ordering::Greater;
    }
    if right.len() == 0 {
        return Ordering::Less;
    }
    right[0].word.cmp(&left[0].word)
}

/// An equal packed sum.
fn copy_of<C: Ring>(packed: &Packed<C>) -> Packed<C>
    ensures word { result.word ≡ packed.now.word }
    ensures sum { C.value result.sum ≡ C.value packed.now.sum }
    ensures bulk { result.bulk ≡ packed.now.bulk }
{
    Packed {
        word: packed.word,
        sum: packed.sum.copy(),
        bulk: packed.bulk,
    }
}

/// One packed sum for two of the same word, if it is within the limits.
fn both<C: Ring>(left: &Packed<C>, right: &Packed<C>) -> Option<Packed<C>>
    ensures word { IfSome result (λ p. p.word ≡ left.now.word) }
    ensures sum { IfSome result (λ p. C.value p.sum ≡ C.value left.now.sum +ℤ C.value right.now.sum) }
    ensures bulk { IfSome result (λ p. p.bulk ≡ left.now.bulk + right.now.bulk) }
    ensures fits { IfSome result (λ p. p.bulk < 2 ^ 127) }
{
    let bulk = left.bulk.checked_add(right.bulk)?;
    if bulk > MAX_COEFFICIENT {
        return None;
    }
    let sum = left.sum.add(&right.sum)?;
    Some(Packed {
        word: left.word,
        sum,
        bulk,
    })
}

/// An empty list with room for so many packed sums.
fn room_for<C: Ring>(alloc: Global, count: usize) -> Option<Vec<Packed<C>>>
    ensures { IfSome result (λ v. v.items ≡ []) }
{
    match Vec::with_capacity(alloc, count) {
        Ok(list) => Some(list),
        Err(_) => None,
    }
}

/// Puts a packed sum behind others, unless there are too many or there is no memory.
fn put<C: Ring>(to: &mut Vec<Packed<C>>, packed: Packed<C>) -> Option<()>
    ensures items { IfSome result (λ _. to.new.items ≡ to.old.items ++ packed ∷ []) }
    ensures room { IfSome result (λ _. length to.old.items < 1000000) }
{
    if to.len() >= MAX_TERMS {
        return None;
    }
    to.push(packed).ok()
}
