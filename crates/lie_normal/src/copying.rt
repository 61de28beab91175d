// Copies of linear forms.
ghost use Rattle.std.specs.Prelude.{◌≡◌, ◌++◌, ◌∷◌, [], IfOk, OnOk};
ghost use Rattle.lie_jet.specs.Derivatives.{derivative_of};

use crate::multiples::Coefficient;
use lie_bytes::NoMemory;
use lie_jet::Der;
use lie_lin::LinEq;
use lie_ring::Polynomial;
use std::alloc::Global;

/// Puts a copy of a derivative with its coefficient behind others.
fn push_copy(
    out: &mut Vec<(Der, Coefficient)>,
    alloc: Global,
    term: &(Der, Coefficient),
) -> Result<(), NoMemory>
    ensures { OnOk result (out.new.items ≡ out.old.items ++ term.now ∷ []) }
{
    let coefficient = term.1.copy(alloc)?;
    out.push((term.0, coefficient))?;
    Ok(())
}

/// A copy of a linear form.
pub fn copy(alloc: Global, eq: &LinEq) -> Result<LinEq, NoMemory>
    ensures { IfOk result (λ same. same ≡ eq.now) }
{
    let mut out = Vec::new(alloc);
    for term in eq.terms() {
        push_copy(&mut out, alloc, term)?;
    }
    Ok(LinEq::of_terms(out))
}
