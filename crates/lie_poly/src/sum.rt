// The sum of a list of terms.
ghost use Rattle.std.specs.Prelude.{◌≡◌, ◌∷◌, [], reverse, IfOk, IfErr};
ghost use Rattle.lie_math.specs.Polynomial.{polynomial_of};
ghost use Rattle.lie_math.specs.Limits.{absolutes};
ghost use Rattle.lie_ring.specs.Causes.{IsCause};
ghost use Rattle.lie_ring.specs.Entries.{entries};
ghost use Rattle.lie_poly.specs.Tallies.{Tells};

use crate::merge::merge;
use crate::tally::Tally;
use lie_ring::{Mono, PastKind, PolyFail, Ring};
use std::alloc::Global;

/// The sum of any terms, in any order.
pub fn tally_terms<C: Ring>(alloc: Global, terms: &[(Mono, C)]) -> Result<Vec<Tally<C>>, PolyFail>
    ensures sum { IfOk result (λ v. Tells C.value (reverse v.items)
        (polynomial_of (entries C.value terms.now))
        (polynomial_of (absolutes (entries C.value terms.now)))) }
    ensures past { IfErr result (λ fail. IsCause fail (polynomial_of (absolutes (entries C.value terms.now)))) }
{
    if terms.len() == 0 {
        return Ok(Vec::new(alloc));
    }
    if terms.len() == 1 {
        return tally_term(alloc, &terms[0]);
    }
    let half = terms.len() / 2;
    let left = tally_terms(alloc, &terms[..half])?;
    let right = tally_terms(alloc, &terms[half..])?;
    merge(alloc, left, right)
}

/// One term, which is none where its coefficient is 0.
fn tally_term<C: Ring>(alloc: Global, term: &(Mono, C)) -> Result<Vec<Tally<C>>, PolyFail>
    ensures sum { IfOk result (λ v. Tells C.value (reverse v.items)
        (polynomial_of (entries C.value (term.now ∷ [])))
        (polynomial_of (absolutes (entries C.value (term.now ∷ []))))) }
    ensures past { IfErr result (λ fail. IsCause fail (polynomial_of (absolutes (entries C.value (term.now ∷ []))))) }
{
    let mut out = Vec::new(alloc);
    let bulk = term.1.size();
    if bulk == 0 {
        return Ok(out);
    }
    if !term.0.has_low_exponents() {
        return Err(PolyFail::Past(PastKind::Exponent));
    }
    let mono = term.0.copy(alloc)?;
    let sum = term.1.copy();
    out.push(Tally { mono, sum, bulk })?;
    Ok(out)
}
