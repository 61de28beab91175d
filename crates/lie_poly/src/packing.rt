// Terms as packed terms, and back.
ghost use Rattle.std.specs.Prelude.{◌≡◌, ◌++◌, [], ◌∷◌, IfSome};
ghost use Rattle.lie_math.specs.Polynomial.{polynomial_of, ◌*ᴾ◌};
ghost use Rattle.lie_math.specs.Limits.{absolutes};
ghost use Rattle.lie_ring.specs.Entries.{entries};
ghost use Rattle.lie_poly.specs.declared.packed.Packed.{Packed as PackedSum};
ghost use Rattle.lie_poly.specs.Packed.{AreTerms, IsUnpacked, IsTermOf};
ghost use Rattle.lie_poly.specs.Sorted.{IsSorted};
ghost use Rattle.lie_poly.specs.Tallies.{IsTold};

use crate::packed::{Packed, multiply};
use crate::words::{are_rising, degree_of, mono_of, word_of};
use lie_ring::{Mono, Ring};
use std::alloc::Global;

/// The greatest degree of a product that is packed: no exponent is then past the limit.
const MAX_DEGREE: u128 = 65_535;

/// The least number of terms of each factor for which packing pays.
const MIN_TERMS: usize = 10;

/// The terms of a product, where it is worth while and possible to pack its monomials, and the product is within the limits.
pub fn packed_product<C: Ring>(
    alloc: Global,
    left: &[(Mono, C)],
    right: &[(Mono, C)],
) -> Option<Vec<(Mono, C)>>
    requires { IsSorted (entries C.value right.now) }
    ensures { IfSome result (λ v. IsTold C.value v.items
        (polynomial_of (entries C.value left.now) *ᴾ polynomial_of (entries C.value right.now))
        (polynomial_of (absolutes (entries C.value left.now)) *ᴾ polynomial_of (absolutes (entries C.value right.now)))) }
{
    if left.len() < MIN_TERMS || right.len() < MIN_TERMS {
        return None;
    }
    let vars = variables_of(alloc, left, right)?;
    let first_degree = greatest_degree(left)?;
    let second_degree = greatest_degree(right)?;
    let most = first_degree.checked_add(second_degree)?;
    if most > MAX_DEGREE || !are_rising(vars.as_slice()) {
        return None;
    }
    let base = most + 1;
    let first = pack(alloc, vars.as_slice(), base, first_degree, left)?;
    let second = pack(alloc, vars.as_slice(), base, second_degree, right)?;
    let packed = multiply(alloc, first.as_slice(), second.as_slice())?;
    unpack(alloc, vars.as_slice(), base, most, packed.as_slice())
}

/// The variables of both, each once, as they rise.
fn variables_of<C: Ring>(
    alloc: Global,
    left: &[(Mono, C)],
    right: &[(Mono, C)],
) -> Option<Vec<u32>> {
    let mut vars = Vec::new(alloc);
    add_variables(&mut vars, left)?;
    add_variables(&mut vars, right)?;
    vars.sort_unstable();
    Some(vars)
}

/// Puts the variables of terms behind others, unless they are there.
fn add_variables<C: Ring>(vars: &mut Vec<u32>, terms: &[(Mono, C)]) -> Option<()> {
    for term in terms {
        for (var, _) in term.0.pairs() {
            if !vars.contains(var) {
                vars.push(*var).ok()?;
            }
        }
    }
    Some(())
}

/// The greatest degree of a term.
fn greatest_degree<C: Ring>(terms: &[(Mono, C)]) -> Option<u128> {
    let mut greatest: u128 = 0;
    for term in terms {
        greatest = greatest.max(degree_of(&term.0)?);
    }
    Some(greatest)
}

/// The packed terms of terms.
fn pack<C: Ring>(
    alloc: Global,
    vars: &[u32],
    base: u128,
    most: u128,
    terms: &[(Mono, C)],
) -> Option<Vec<(u128, C)>>
    ensures { IfSome result (λ v. AreTerms C.value base vars.now most v.items terms.now) }
{
    let mut out = Vec::new(alloc);
    for term in terms {
        let word = word_of(vars, base, most, &term.0)?;
        let number = term.1.copy();
        if out.push((word, number)).is_err() {
            return None;
        }
    }
    Some(out)
}

/// The terms of packed sums that are not 0.
fn unpack<C: Ring>(
    alloc: Global,
    vars: &[u32],
    base: u128,
    most: u128,
    packed: &[Packed<C>],
) -> Option<Vec<(Mono, C)>>
    ensures { IfSome result (λ v. IsUnpacked C.value base vars.now most packed.now v.items) }
{
    let mut out = Vec::new(alloc);
    for sum in packed {
        put_term(&mut out, alloc, vars, base, most, sum)?;
    }
    Some(out)
}

/// Puts the term of a packed sum behind others, unless it is 0.
fn put_term<C: Ring>(
    out: &mut Vec<(Mono, C)>,
    alloc: Global,
    vars: &[u32],
    base: u128,
    most: u128,
    packed: &Packed<C>,
) -> Option<()>
    ensures { IfSome result (λ _. IsTermOf C.value base vars.now most packed.now out.old.items out.new.items) }
{
    if packed.sum.size() == 0 {
        return Some(());
    }
    let mono = mono_of(alloc, vars, base, most, packed.word)?;
    let number = packed.sum.copy();
    if out.push((mono, number)).is_err() {
        return None;
    }
    Some(())
}
