// Products of polynomials, and multiples by one term.
ghost use Rattle.std.specs.Prelude.{◌≡◌, reverse, pos, ◌*ℤ◌, unsigned_abs, IfOk, IfErr, OnOk};
ghost use Rattle.lie_math.specs.Monomial.{◌·◌};
ghost use Rattle.lie_math.specs.Polynomial.{polynomial_of, term, ◌*ᴾ◌};
ghost use Rattle.lie_math.specs.Limits.{FitsNumber, HasLowExponents, absolutes};
ghost use Rattle.lie_ring.specs.Causes.{IsCause};
ghost use Rattle.lie_ring.specs.Entries.{entries};
ghost use Rattle.lie_poly.specs.Sorted.{IsSorted};
ghost use Rattle.lie_poly.specs.Tallies.{Tells};
ghost use Rattle.lie_poly.specs.Failures.{IsTermCause};

use crate::merge::merge;
use crate::tally::{Tally, push};
use lie_ring::{Mono, PastKind, PolyFail, Ring};
use std::alloc::Global;

/// The product of two lists of terms, the right one in print order.
pub fn multiply<C: Ring>(
    alloc: Global,
    left: &[(Mono, C)],
    right: &[(Mono, C)],
) -> Result<Vec<Tally<C>>, PolyFail>
    requires { IsSorted (entries C.value right.now) }
    ensures product { IfOk result (λ v. Tells C.value (reverse v.items)
        (polynomial_of (entries C.value left.now) *ᴾ polynomial_of (entries C.value right.now))
        (polynomial_of (absolutes (entries C.value left.now)) *ᴾ polynomial_of (absolutes (entries C.value right.now)))) }
    ensures past { IfErr result (λ fail. IsCause fail
        (polynomial_of (absolutes (entries C.value left.now)) *ᴾ polynomial_of (absolutes (entries C.value right.now)))) }
{
    if left.len() == 0 {
        return Ok(Vec::new(alloc));
    }
    if left.len() == 1 {
        let factor = &left[0];
        return times_term(alloc, &factor.0, &factor.1, right);
    }
    let half = left.len() / 2;
    let first = multiply(alloc, &left[..half], right)?;
    let second = multiply(alloc, &left[half..], right)?;
    merge(alloc, first, second)
}

/// One term times each of the terms, which are in print order.
pub fn times_term<C: Ring>(
    alloc: Global,
    mono: &Mono,
    c: &C,
    terms: &[(Mono, C)],
) -> Result<Vec<Tally<C>>, PolyFail>
    requires { IsSorted (entries C.value terms.now) }
    ensures product { IfOk result (λ v. Tells C.value (reverse v.items)
        (term mono.now (C.value c.now) *ᴾ polynomial_of (entries C.value terms.now))
        (term mono.now (pos (unsigned_abs (C.value c.now))) *ᴾ polynomial_of (absolutes (entries C.value terms.now)))) }
    ensures past { IfErr result (λ fail. IsCause fail
        (term mono.now (pos (unsigned_abs (C.value c.now))) *ᴾ polynomial_of (absolutes (entries C.value terms.now)))) }
{
    let mut out = Vec::new(alloc);
    if c.size() == 0 {
        return Ok(out);
    }
    for factor in terms {
        let product = tally_product(alloc, mono, c, factor)?;
        push(&mut out, product)?;
    }
    out.reverse();
    Ok(out)
}

/// The product of two terms.
fn tally_product<C: Ring>(
    alloc: Global,
    mono: &Mono,
    c: &C,
    factor: &(Mono, C),
) -> Result<Tally<C>, PolyFail>
    ensures mono { IfOk result (λ t. t.mono ≡ mono.now · factor.now.0) }
    ensures sum { IfOk result (λ t. C.value t.sum ≡ C.value c.now *ℤ C.value factor.now.1) }
    ensures bulk { IfOk result (λ t. t.bulk ≡ unsigned_abs (C.value c.now *ℤ C.value factor.now.1)) }
    ensures fits { OnOk result (FitsNumber (C.value c.now *ℤ C.value factor.now.1)) }
    ensures low { OnOk result (HasLowExponents (mono.now · factor.now.0)) }
    ensures past { IfErr result (λ fail. IsTermCause fail (mono.now · factor.now.0) (C.value c.now *ℤ C.value factor.now.1)) }
{
    let sum = match c.mul(&factor.1) {
        Some(sum) => sum,
        None => return Err(PolyFail::Past(PastKind::Coefficient)),
    };
    let bulk = sum.size();
    let mono = mono.times(alloc, &factor.0)?;
    Ok(Tally { mono, sum, bulk })
}
