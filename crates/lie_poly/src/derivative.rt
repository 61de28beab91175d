// Partial derivatives.
ghost use Rattle.std.specs.Prelude.{◌≡◌, ◌++◌, ◌∷◌, [], ◌≤◌, ◌^◌, ◌*ℤ◌, pos, unsigned_abs, IfOk, IfErr, OnOk, MatchOption};
ghost use Rattle.lie_math.specs.Monomial.{exponent};
ghost use Rattle.lie_math.specs.Polynomial.{polynomial_of};
ghost use Rattle.lie_math.specs.PartialDerivative.{partial};
ghost use Rattle.lie_math.specs.Limits.{FitsNumber, absolutes};
ghost use Rattle.lie_math.proofs.TermWise.{derived_list};
ghost use Rattle.lie_ring.specs.Causes.{IsCause};
ghost use Rattle.lie_ring.specs.Numbers.{IsExact};
ghost use Rattle.lie_ring.specs.Entries.{entries};
ghost use Rattle.lie_poly.specs.Sorted.{IsSorted};
ghost use Rattle.lie_poly.specs.Failures.{IsWideNumber};

use lie_ring::{Mono, PastKind, PolyFail, Ring};
use std::alloc::Global;

/// The derivatives of the terms that have the variable.
pub fn derive_terms<C: Ring>(
    alloc: Global,
    terms: &[(Mono, C)],
    var: u32,
) -> Result<Vec<(Mono, C)>, PolyFail>
    requires { IsSorted (entries C.value terms.now) }
    ensures terms { IfOk result (λ v. entries C.value v.items ≡ derived_list var (entries C.value terms.now)) }
    ensures fits { OnOk result (IsSorted (derived_list var (entries C.value terms.now))) }
    ensures past { IfErr result (λ fail. IsCause fail (polynomial_of (absolutes (derived_list var (entries C.value terms.now))))) }
{
    let mut out = Vec::new(alloc);
    for term in terms {
        push_derivative(&mut out, alloc, term, var)?;
    }
    Ok(out)
}

/// Puts the derivative of a term behind others, unless it does not have the variable.
fn push_derivative<C: Ring>(
    out: &mut Vec<(Mono, C)>,
    alloc: Global,
    term: &(Mono, C),
    var: u32,
) -> Result<(), PolyFail>
    ensures items { OnOk result (entries C.value out.new.items
        ≡ entries C.value out.old.items ++ derived_list var ((term.now.0, C.value term.now.1) ∷ [])) }
    ensures fits { OnOk result (FitsNumber (C.value term.now.1 *ℤ pos (exponent term.now.0 var))) }
    ensures past { IfErr result (λ fail. IsWideNumber fail (C.value term.now.1 *ℤ pos (exponent term.now.0 var))) }
{
    let exponent = term.0.exponent(var);
    if exponent == 0 {
        return Ok(());
    }
    let coefficient = match repeat(&term.1, exponent) {
        Some(coefficient) => coefficient,
        None => return Err(PolyFail::Past(PastKind::Coefficient)),
    };
    let mono = term.0.lowered(alloc, var)?;
    out.push((mono, coefficient))?;
    Ok(())
}

/// A number added up this many times; None exactly where the sum is past the limit.
fn repeat<C: Ring>(c: &C, times: u32) -> Option<C>
    ensures { IsExact C.value result (C.value c.now *ℤ pos times) }
{
    if times == 0 {
        return Some(C::zero());
    }
    let half = repeat(c, times / 2)?;
    let even = half.add(&half)?;
    if times % 2 == 0 {
        return Some(even);
    }
    even.add(c)
}
