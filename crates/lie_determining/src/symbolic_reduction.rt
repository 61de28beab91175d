// The reduction of a linear form by the rules of a solved system.
ghost use Rattle.std.specs.Prelude.{◌≡◌, map, IfOk, IfErr, OnOk};
ghost use Rattle.lie_math.specs.LinearForm.{◌+ᶠ◌, form_term, each_coefficient};
ghost use Rattle.lie_math.specs.Limits.{absolute};
ghost use Rattle.lie_geometry.specs.DeterminingEquations.{symbolic_reduced};
ghost use Rattle.lie_geometry.specs.SolvedEquations.{reduced_by};
ghost use Rattle.lie_systems.specs.Bulk.{IsFormWithinLimits};
ghost use Rattle.lie_jet.specs.Derivatives.{derivative_of};
ghost use Rattle.lie_form.specs.DerivativeTerms.{derivative_terms};
ghost use Rattle.lie_form.specs.FormLimits.{IsFormCause, IsFormCoefficientCause};
ghost use Rattle.lie_solved.specs.SolvedForms.{solved_equations};
ghost use Rattle.lie_solved.specs.SolvedRules.{AreSolvedRules};
ghost use Rattle.lie_reduce.specs.Bulks.{absolute_equations, reduction_bulk_by};
ghost use Rattle.lie_reduce.specs.ReducedTerms.{AreExponents, ForExponents};
ghost use Rattle.lie_reduce.specs.Reductions.{CanReduce};
ghost use Rattle.lie_determining.specs.SymbolicBulks.{degree_in_form, symbolic_reduction_bulk};

use lie_bytes::NoMemory;
use lie_form::SymForm;
use lie_jet::{Der, JetPoly, Space};
use lie_reduce::{greatest_exponents, reduced};
use lie_ring::{PolyFail, Polynomial};
use lie_solved::LeadRule;
use std::alloc::Global;

/// The coefficients of a form.
fn coefficients(alloc: Global, form: &SymForm) -> Result<Vec<JetPoly>, NoMemory>
    ensures { IfOk result (λ made. made.items ≡ map (λ t. t.1) form.now.list) }
{
    let mut made = Vec::new(alloc);
    for term in form.terms() {
        let copy = term.1.copy(alloc)?;
        made.push(copy)?;
    }
    Ok(made)
}

/// Adds the reduction of a coefficient times its derivative, by the exponents of the leads.
fn put_reduced(
    sum: &mut SymForm,
    alloc: Global,
    space: Space,
    rules: &[LeadRule],
    greatest: &[u32],
    term: &(Der, JetPoly),
) -> Result<(), PolyFail>
    requires rules { CanReduce space rules.now }
    requires greatest { AreExponents space rules.now greatest.now }
    ensures sum { ForExponents space rules.now greatest.now (λ e. OnOk result
        (sum.new ≡ sum.old +ᶠ form_term (derivative_of term.now.0) (reduced_by (solved_equations space rules.now) e term.now.1))) }
    ensures past { ForExponents space rules.now greatest.now (λ e. IfErr result
        (λ fail. IsFormCoefficientCause fail (each_coefficient absolute sum.old
        +ᶠ form_term (derivative_of term.now.0) (reduction_bulk_by (solved_equations space rules.now) e term.now.1)))) }
{
    let made = reduced(alloc, space, rules, greatest, &term.1)?;
    sum.put(alloc, term.0, made)
}

/// The coefficients of a form reduced, by the greatest exponents of the leads in any of them. An error has its cause in a
/// coefficient of the reduction with absolute values.
fn reduced_form(
    alloc: Global,
    space: Space,
    rules: &[LeadRule],
    form: &SymForm,
) -> Result<SymForm, PolyFail>
    requires rules { CanReduce space rules.now }
    ensures value { IfOk result (λ made. made ≡ symbolic_reduced (solved_equations space rules.now) form.now) }
    ensures past { IfErr result (λ fail. IsFormCoefficientCause fail
        (symbolic_reduction_bulk (solved_equations space rules.now) form.now)) }
{
    let polynomials = coefficients(alloc, form)?;
    let greatest = greatest_exponents(alloc, space, rules, polynomials.as_slice())?;
    let mut sum = SymForm::zero(alloc);
    for term in form.terms() {
        put_reduced(&mut sum, alloc, space, rules, greatest.as_slice(), term)?;
    }
    Ok(sum)
}

/// The coefficients of the form reduced, by the greatest exponents of the leads in any of them: first with absolute values, where
/// nothing cancels, and then truly. The second rules are the first ones with absolute values.
///
/// `Past` comes exactly where the reduction with absolute values is past a limit.
pub fn symbolic_reduction(
    alloc: Global,
    space: Space,
    rules: &[LeadRule],
    absolutes: &[LeadRule],
    form: &SymForm,
) -> Result<SymForm, PolyFail>
    requires rules { AreSolvedRules space rules.now }
    requires absolutes { solved_equations space absolutes.now ≡ absolute_equations (solved_equations space rules.now) }
    requires ready { CanReduce space absolutes.now }
    ensures value { IfOk result (λ made. made ≡ symbolic_reduced (solved_equations space rules.now) form.now) }
    ensures fits { OnOk result (IsFormWithinLimits (symbolic_reduction_bulk (solved_equations space rules.now) form.now)) }
    ensures within { IfOk result IsFormWithinLimits }
    ensures past { IfErr result (λ fail. IsFormCause fail (symbolic_reduction_bulk (solved_equations space rules.now) form.now)) }
{
    let absolute = form.absolute(alloc)?;
    let bulk = reduced_form(alloc, space, absolutes, &absolute)?;
    bulk.within_limits()?;
    let made = reduced_form(alloc, space, rules, form)?;
    // Nothing is past a limit that its bulk is within.
    made.within_limits()?;
    Ok(made)
}
