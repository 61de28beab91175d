// Sums of multiples of linear forms.
ghost use Rattle.std.specs.Prelude.{◌≡◌, IfOk, IfErr, OnOk};
ghost use Rattle.lie_math.specs.Limits.{absolute};
ghost use Rattle.lie_math.specs.LinearForm.{◌+ᶠ◌, each_coefficient};
ghost use Rattle.lie_systems.specs.Bulk.{IsFormWithinLimits};
ghost use Rattle.lie_jet.specs.Derivatives.{derivative_of};
ghost use Rattle.lie_form.specs.DerivativeTerms.{derivative_terms};
ghost use Rattle.lie_form.specs.FormLimits.{IsFormCause, IsFormCoefficientCause};
ghost use Rattle.lie_form.proofs.FormBounds.{over_entries};
ghost use Rattle.lie_normal.specs.TermSums.{multiple_term, multiples, multiples_bulk};

use crate::absolutes::absolute_terms;
use lie_form::SymForm;
use lie_jet::{Der, JetPoly, absolute_polynomial};
use lie_lin::LinEq;
use lie_ring::{PolyFail, Polynomial};
use std::alloc::Global;

/// The coefficient of a derivative in a linear form.
pub type Coefficient = JetPoly;

/// The sum of two forms, each times a polynomial. Past exactly where the same sum with the absolute values of all numbers is past
/// a limit.
pub fn sum_of_multiples(
    alloc: Global,
    factor: &Coefficient,
    eq: &LinEq,
    other_factor: &Coefficient,
    other: &LinEq,
) -> Result<LinEq, PolyFail>
    ensures sum { IfOk result (λ made. made ≡ multiples factor.now eq.now other_factor.now other.now) }
    ensures fits { OnOk result (IsFormWithinLimits (multiples_bulk factor.now eq.now other_factor.now other.now)) }
    ensures past { IfErr result (λ fail. IsFormCause fail (multiples_bulk factor.now eq.now other_factor.now other.now)) }
{
    let bulk = bulk_of_multiples(alloc, factor, eq, other_factor, other)?;
    bulk.within_limits()?;
    let sum = both(alloc, factor, eq.terms(), other_factor, other.terms())?;
    Ok(LinEq::of_terms(sum.into_terms()))
}

/// The sum with the absolute values of all numbers.
fn bulk_of_multiples(
    alloc: Global,
    factor: &Coefficient,
    eq: &LinEq,
    other_factor: &Coefficient,
    other: &LinEq,
) -> Result<SymForm, PolyFail>
    ensures bulk { IfOk result (λ bulk. bulk ≡ multiples_bulk factor.now eq.now other_factor.now other.now) }
    ensures past { IfErr result (λ fail. IsFormCoefficientCause fail (multiples_bulk factor.now eq.now other_factor.now other.now)) }
{
    let factor_sizes = absolute_polynomial(alloc, factor)?;
    let other_factor_sizes = absolute_polynomial(alloc, other_factor)?;
    let terms = absolute_terms(alloc, eq.terms())?;
    let others = absolute_terms(alloc, other.terms())?;
    both(
        alloc,
        &factor_sizes,
        terms.as_slice(),
        &other_factor_sizes,
        others.as_slice(),
    )
}

/// The sum of terms times a polynomial and of others times another. An error has its cause in a coefficient of the sum with
/// absolute values.
fn both(
    alloc: Global,
    factor: &Coefficient,
    terms: &[(Der, Coefficient)],
    other_factor: &Coefficient,
    others: &[(Der, Coefficient)],
) -> Result<SymForm, PolyFail>
    ensures sum { IfOk result (λ sum. sum ≡ over_entries (multiple_term factor.now) (derivative_terms terms.now)
        +ᶠ over_entries (multiple_term other_factor.now) (derivative_terms others.now)) }
    ensures past { IfErr result (λ fail. IsFormCoefficientCause fail (
        over_entries (λ d a. multiple_term (absolute factor.now) d (absolute a)) (derivative_terms terms.now)
        +ᶠ over_entries (λ d a. multiple_term (absolute other_factor.now) d (absolute a)) (derivative_terms others.now))) }
{
    let mut sum = SymForm::zero(alloc);
    put_multiple(&mut sum, alloc, factor, terms)?;
    put_multiple(&mut sum, alloc, other_factor, others)?;
    Ok(sum)
}

/// Adds terms times a polynomial.
pub fn put_multiple(
    sum: &mut SymForm,
    alloc: Global,
    factor: &Coefficient,
    terms: &[(Der, Coefficient)],
) -> Result<(), PolyFail>
    ensures sum { OnOk result (sum.new ≡ sum.old +ᶠ over_entries (multiple_term factor.now) (derivative_terms terms.now)) }
    ensures past { IfErr result (λ fail. IsFormCoefficientCause fail (each_coefficient absolute sum.old
        +ᶠ over_entries (λ d a. multiple_term (absolute factor.now) d (absolute a)) (derivative_terms terms.now))) }
{
    for term in terms {
        put_product(sum, alloc, factor, term)?;
    }
    Ok(())
}

/// Adds a polynomial times a term.
fn put_product(
    sum: &mut SymForm,
    alloc: Global,
    factor: &Coefficient,
    term: &(Der, Coefficient),
) -> Result<(), PolyFail>
    ensures sum { OnOk result (sum.new ≡ sum.old +ᶠ multiple_term factor.now (derivative_of term.now.0) term.now.1) }
    ensures past { IfErr result (λ fail. IsFormCoefficientCause fail (each_coefficient absolute sum.old
        +ᶠ multiple_term (absolute factor.now) (derivative_of term.now.0) (absolute term.now.1))) }
{
    let product = factor.mul(alloc, &term.1)?;
    sum.put(alloc, term.0, product)
}
