// Derivatives of forms by several variables, one after the other.
ghost use Rattle.std.specs.Prelude.{◌≡◌, ◌<◌, ◌++◌, map, replicate, IfOk, IfErr, OnOk};
ghost use Rattle.std.specs.List.{AllByRecursion as Every};
ghost use Rattle.lie_math.specs.Polynomial.{0ᴾ};
ghost use Rattle.lie_jet.specs.Derivatives.{derivative_of};
ghost use Rattle.lie_form.specs.DerivativeTerms.{derivative_terms};
ghost use Rattle.lie_form.proofs.FormBounds.{IsFormBound};
ghost use Rattle.lie_geometry.proofs.AbsoluteForms.{entry_absolutes};
ghost use Rattle.lie_lin.specs.Systems.{unknown_of};
ghost use Rattle.lie_steps.specs.Derivatives.{derivative};
ghost use Rattle.lie_replace.specs.Growing.{FormLasts, IsGrownCause};
ghost use Rattle.lie_normal.specs.Orders.{RisesHigh};
ghost use Rattle.lie_replace.specs.Replacing.{variables_of, derivatives_by, form_of};

use lie_bytes::NoMemory;
use lie_jet::Der;
use lie_lin::Unknown;
use lie_normal::{Coefficient, rises_high, sum_of_derivatives};
use lie_ring::{PastKind, PolyFail};
use std::alloc::Global;

/// Puts a variable behind others, as often as a count says.
fn push_often(vars: &mut Vec<u8>, var: u8, count: u8) -> Result<(), NoMemory>
    ensures { OnOk result (vars.new.items ≡ vars.old.items ++ replicate count var) }
{
    let mut left = count;
    while left > 0 {
        vars.push(var)?;
        left -= 1;
    }
    Ok(())
}

/// The variables by which a derivative derives, each as often as its count says.
pub fn variables_of(alloc: Global, der: &Der) -> Result<Vec<u8>, NoMemory>
    ensures variables { IfOk result (λ vars. vars.items ≡ variables_of (derivative_of der.now).counts) }
    ensures within { IfOk result (λ vars. Every (λ v. v < 8) vars.items) }
{
    let mut vars = Vec::new(alloc);
    for var in 0..8u8 {
        push_often(&mut vars, var, der.counts[usize::from(var)])?;
    }
    Ok(vars)
}

/// The derivative of terms by the variables, one after the other, where no term of the sum with absolute values is lost by them. An
/// error has its cause in that sum, derived.
pub fn derivatives_by(
    alloc: Global,
    unknowns: &[Unknown],
    vars: &[u8],
    terms: Vec<(Der, Coefficient)>,
) -> Result<Vec<(Der, Coefficient)>, PolyFail>
    requires within { Every (λ v. v < 8) vars.now }
    requires apart { Every (λ e. ¬ (e.1 ≡ 0ᴾ)) (derivative_terms terms.items) }
    requires lasts { FormLasts (map unknown_of unknowns.now) vars.now (form_of (entry_absolutes (derivative_terms terms.items))) }
    ensures derivatives { IfOk result (λ made. form_of (derivative_terms made.items)
        ≡ derivatives_by (map unknown_of unknowns.now) vars.now (form_of (derivative_terms terms.items))) }
    ensures bounded { IfOk result (λ made. IsFormBound (form_of (entry_absolutes (derivative_terms made.items)))
        (derivatives_by (map unknown_of unknowns.now) vars.now (form_of (entry_absolutes (derivative_terms terms.items))))) }
    ensures past { IfErr result (λ fail. IsGrownCause fail
        (derivatives_by (map unknown_of unknowns.now) vars.now (form_of (entry_absolutes (derivative_terms terms.items))))) }
{
    let mut terms = terms;
    for var in vars {
        if rises_high(terms.as_slice(), unknowns, *var) {
            return Err(PolyFail::Past(PastKind::Order));
        }
        let sum = sum_of_derivatives(alloc, terms.as_slice(), unknowns, *var)?;
        terms = sum.into_terms();
    }
    Ok(terms)
}
