// Derivatives of linear forms.
ghost use Rattle.std.specs.Prelude.{◌≡◌, ◌<◌, map, IsTrue, IfOk, IfErr, OnOk};
ghost use Rattle.std.specs.List.{AllByRecursion as Every, Any};
ghost use Rattle.lie_math.specs.Limits.{absolute};
ghost use Rattle.lie_math.specs.LinearForm.{◌+ᶠ◌, each_coefficient};
ghost use Rattle.lie_systems.specs.Bulk.{IsFormWithinLimits};
ghost use Rattle.lie_jet.specs.Derivatives.{derivative_of};
ghost use Rattle.lie_form.specs.DerivativeTerms.{derivative_terms};
ghost use Rattle.lie_form.specs.FormLimits.{IsFormCause, IsFormCoefficientCause};
ghost use Rattle.lie_form.proofs.FormBounds.{over_entries};
ghost use Rattle.lie_lin.specs.Systems.{unknown_of};
ghost use Rattle.lie_steps.specs.Bulks.{derivative_bulk};
ghost use Rattle.lie_steps.specs.Derivatives.{derivative};
ghost use Rattle.lie_normal.specs.Orders.{RisesHigh, StaysLow};
ghost use Rattle.lie_normal.specs.TermSums.{raised_term, derivative_term};

use crate::absolutes::absolute_terms;
use crate::multiples::Coefficient;
use crate::unknowns::depends;
use lie_form::SymForm;
use lie_jet::{Der, order_of_derivative, raise_derivative};
use lie_lin::{LinEq, Unknown};
use lie_ring::{PastKind, PolyFail, Polynomial};
use std::alloc::Global;

/// The greatest order of a derivative of an unknown.
const MAX_ORDER: u32 = 64;

/// The partial derivative of a linear form by the variable `var`, which is below 8: that of each coefficient, and each coefficient
/// times the derivative of its unknown, where that depends on the variable.
///
/// `Past` comes exactly where the derivative of the form with the absolute values of its numbers is past a limit.
pub fn derive(alloc: Global, eq: &LinEq, unknowns: &[Unknown], var: u8) -> Result<LinEq, PolyFail>
    requires { var < 8 }
    ensures derivative { IfOk result (λ made. made ≡ derivative (map unknown_of unknowns.now) var eq.now) }
    ensures fits { OnOk result (IsFormWithinLimits (derivative_bulk (map unknown_of unknowns.now) var eq.now)) }
    ensures past { IfErr result (λ fail. IsFormCause fail (derivative_bulk (map unknown_of unknowns.now) var eq.now)) }
{
    let terms = eq.terms();
    if rises_high(terms, unknowns, var) {
        return Err(PolyFail::Past(PastKind::Order));
    }
    let sizes = absolute_terms(alloc, terms)?;
    let bulk = sum_of_derivatives(alloc, sizes.as_slice(), unknowns, var)?;
    bulk.within_limits()?;
    let sum = sum_of_derivatives(alloc, terms, unknowns, var)?;
    Ok(LinEq::of_terms(sum.into_terms()))
}

/// Whether a derivative has the order 64 or more and is derived once more.
fn rises(term: &(Der, Coefficient), unknowns: &[Unknown], var: u8) -> bool
    requires { var < 8 }
    ensures high { IsTrue result → RisesHigh (map unknown_of unknowns.now) var (derivative_of term.now.0, term.now.1) }
    ensures low { (¬ (IsTrue result)) → StaysLow (map unknown_of unknowns.now) var (derivative_of term.now.0, term.now.1) }
{
    order_of_derivative(&term.0) >= MAX_ORDER && depends(unknowns, term.0.unknown, var)
}

/// Whether some derivative of order 64 or more is derived once more.
pub fn rises_high(terms: &[(Der, Coefficient)], unknowns: &[Unknown], var: u8) -> bool
    requires { var < 8 }
    ensures high { IsTrue result → Any (RisesHigh (map unknown_of unknowns.now) var) (derivative_terms terms.now) }
    ensures low { (¬ (IsTrue result)) → Every (StaysLow (map unknown_of unknowns.now) var) (derivative_terms terms.now) }
{
    let mut i = terms.len();
    while i > 0 {
        i -= 1;
        if rises(&terms[i], unknowns, var) {
            return true;
        }
    }
    false
}

/// The sum of the derivatives of terms. An error has its cause in a coefficient of the sum with absolute values.
pub fn sum_of_derivatives(
    alloc: Global,
    terms: &[(Der, Coefficient)],
    unknowns: &[Unknown],
    var: u8,
) -> Result<SymForm, PolyFail>
    requires within { var < 8 }
    requires low { Every (StaysLow (map unknown_of unknowns.now) var) (derivative_terms terms.now) }
    ensures sum { IfOk result (λ sum. sum ≡ over_entries (derivative_term (map unknown_of unknowns.now) var) (derivative_terms terms.now)) }
    ensures past { IfErr result (λ fail. IsFormCoefficientCause fail (
        over_entries (λ d a. derivative_term (map unknown_of unknowns.now) var d (absolute a)) (derivative_terms terms.now))) }
{
    let mut sum = SymForm::zero(alloc);
    for term in terms {
        put_derivative(&mut sum, alloc, unknowns, var, term)?;
    }
    Ok(sum)
}

/// Adds the derivative of a polynomial times a derivative.
fn put_derivative(
    sum: &mut SymForm,
    alloc: Global,
    unknowns: &[Unknown],
    var: u8,
    term: &(Der, Coefficient),
) -> Result<(), PolyFail>
    requires within { var < 8 }
    requires low { StaysLow (map unknown_of unknowns.now) var (derivative_of term.now.0, term.now.1) }
    ensures sum { OnOk result (sum.new ≡ sum.old
        +ᶠ derivative_term (map unknown_of unknowns.now) var (derivative_of term.now.0) term.now.1) }
    ensures past { IfErr result (λ fail. IsFormCoefficientCause fail (each_coefficient absolute sum.old
        +ᶠ derivative_term (map unknown_of unknowns.now) var (derivative_of term.now.0) (absolute term.now.1))) }
{
    let derived = term.1.derive(alloc, var as u32)?;
    sum.put(alloc, term.0, derived)?;
    put_raised(sum, alloc, unknowns, var, term)
}

/// Adds a polynomial times the derivative of a derivative, where its unknown depends on the variable.
fn put_raised(
    sum: &mut SymForm,
    alloc: Global,
    unknowns: &[Unknown],
    var: u8,
    term: &(Der, Coefficient),
) -> Result<(), PolyFail>
    requires within { var < 8 }
    requires low { StaysLow (map unknown_of unknowns.now) var (derivative_of term.now.0, term.now.1) }
    ensures sum { OnOk result (sum.new ≡ sum.old +ᶠ raised_term (map unknown_of unknowns.now) var (derivative_of term.now.0) term.now.1) }
    ensures past { IfErr result (λ fail. IsFormCoefficientCause fail (each_coefficient absolute sum.old
        +ᶠ raised_term (map unknown_of unknowns.now) var (derivative_of term.now.0) (absolute term.now.1))) }
{
    if !depends(unknowns, term.0.unknown, var) {
        return Ok(());
    }
    let same = term.1.copy(alloc)?;
    sum.put(alloc, raise_derivative(&term.0, var), same)
}
