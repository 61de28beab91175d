// Absolute values of the coefficients of a polynomial.
ghost use Rattle.std.specs.Prelude.{◌≡◌, ◌++◌, ◌∷◌, [], pos, unsigned_abs, IfOk, IfErr, OnOk};
ghost use Rattle.lie_math.specs.Limits.{absolute};
ghost use Rattle.lie_poly.specs.Failures.{IsStarved};

use crate::totals::JetPoly;
use lie_ring::{Mono, PolyFail, Polynomial, Whole};
use std::alloc::Global;

/// The polynomial with the absolute values of its coefficients.
pub fn absolute_polynomial(alloc: Global, p: &JetPoly) -> Result<JetPoly, PolyFail>
    ensures absolute { IfOk result (λ a. a ≡ absolute p.now) }
    ensures memory { IfErr result IsStarved }
{
    let mut absolutes = Vec::with_capacity(alloc, p.len())?;
    let terms = p.terms(alloc)?;
    for term in &terms {
        push_absolute(&mut absolutes, alloc, term)?;
    }
    JetPoly::of_terms(alloc, absolutes.as_slice())
}

/// Puts a term with the absolute value of its coefficient behind others.
fn push_absolute(
    absolutes: &mut Vec<(Mono, Whole)>,
    alloc: Global,
    term: &(Mono, Whole),
) -> Result<(), PolyFail>
    ensures pushed { OnOk result (absolutes.new.items ≡ absolutes.old.items ++ (term.now.0, pos (unsigned_abs term.now.1)) ∷ []) }
    ensures memory { IfErr result IsStarved }
{
    let mono = term.0.copy(alloc)?;
    absolutes.push((mono, term.1.absolute()))?;
    Ok(())
}

/// The absolute value.
pub fn absolute_value(c: Whole) -> Whole
    ensures { result ≡ pos (unsigned_abs c) }
{
    c.absolute()
}
