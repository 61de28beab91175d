// Terms of forms with the absolute values of their numbers.
ghost use Rattle.std.specs.Prelude.{◌≡◌, ◌++◌, ◌∷◌, [], map, IfOk, IfErr, OnOk};
ghost use Rattle.lie_math.specs.Limits.{absolute};
ghost use Rattle.lie_poly.specs.Failures.{IsStarved};

use crate::multiples::Coefficient;
use lie_jet::{Der, absolute_polynomial};
use lie_ring::PolyFail;
use std::alloc::Global;

/// The terms with the absolute values of the numbers of their coefficients. It fails for want of memory alone.
pub fn absolute_terms(
    alloc: Global,
    terms: &[(Der, Coefficient)],
) -> Result<Vec<(Der, Coefficient)>, PolyFail>
    ensures sizes { IfOk result (λ sizes. sizes.items ≡ map (λ t. (t.0, absolute t.1)) terms.now) }
    ensures memory { IfErr result IsStarved }
{
    let mut sizes = Vec::new(alloc);
    for term in terms {
        push_absolute(&mut sizes, alloc, term)?;
    }
    Ok(sizes)
}

/// Puts a derivative with the absolute values of its coefficient behind others.
fn push_absolute(
    sizes: &mut Vec<(Der, Coefficient)>,
    alloc: Global,
    term: &(Der, Coefficient),
) -> Result<(), PolyFail>
    ensures pushed { OnOk result (sizes.new.items ≡ sizes.old.items ++ (term.now.0, absolute term.now.1) ∷ []) }
    ensures memory { IfErr result IsStarved }
{
    let absolute = absolute_polynomial(alloc, &term.1)?;
    sizes.push((term.0, absolute))?;
    Ok(())
}
