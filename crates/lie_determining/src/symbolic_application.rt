// The prolonged field of unknown functions applied to an equation in solved form.
ghost use Rattle.std.specs.Prelude.{◌≡◌, ◌<◌, ◌^◌, length, unsigned_abs, IfOk, IfErr, OnOk};
ghost use Rattle.lie_math.specs.Limits.{absolute};
ghost use Rattle.lie_math.specs.LinearForm.{◌+ᶠ◌, form_term, each_coefficient, times_form};
ghost use Rattle.lie_math.specs.PartialDerivative.{partial};
ghost use Rattle.lie_math.specs.Polynomial.{◌*ᴾ◌};
ghost use Rattle.lie_math.specs.Variables.{FreeOf};
ghost use Rattle.lie_jet.specs.Derivatives.{derivative_of};
ghost use Rattle.lie_form.specs.FormLimits.{IsFormCoefficientCause};
ghost use Rattle.lie_reduce.specs.Applications.{sides};
ghost use Rattle.lie_determining.specs.AppliedForms.{applied_forms, applied_forms_bulk};

use lie_form::SymForm;
use lie_jet::{Der, JetPoly};
use lie_reduce::derivative_of_sides;
use lie_ring::{PolyFail, Polynomial, Whole};
use lie_solved::LeadRule;
use std::alloc::Global;

/// The sum of the forms, one for each coordinate by its number, times the derivatives by these coordinates of
/// `c * lead + sign * right`, where the right side does not have the lead, and the sign is 1 or -1. An error has its cause in a
/// coefficient of the sum with absolute values.
pub fn symbolic_application(
    alloc: Global,
    forms: &[SymForm],
    rule: &LeadRule,
    lead: u32,
    sign: Whole,
) -> Result<SymForm, PolyFail>
    requires few { length forms.now < 2 ^ 32 }
    requires free { FreeOf lead rule.now.right }
    requires unit { unsigned_abs sign ≡ 1 }
    ensures sum { IfOk result (λ made. made ≡ applied_forms forms.now (sides lead rule.now.c sign rule.now.right)) }
    ensures past { IfErr result (λ fail. IsFormCoefficientCause fail
        (applied_forms_bulk forms.now (sides lead rule.now.c sign rule.now.right))) }
{
    let mut sum = SymForm::zero(alloc);
    for (w, form) in forms.iter().enumerate() {
        put_multiple(&mut sum, alloc, rule, lead, sign, w as u32, form)?;
    }
    Ok(sum)
}

/// Adds a form times the derivative of `c * lead + sign * right` by a coordinate.
fn put_multiple(
    sum: &mut SymForm,
    alloc: Global,
    rule: &LeadRule,
    lead: u32,
    sign: Whole,
    w: u32,
    form: &SymForm,
) -> Result<(), PolyFail>
    requires free { FreeOf lead rule.now.right }
    requires unit { unsigned_abs sign ≡ 1 }
    ensures sum { OnOk result (sum.new ≡ sum.old +ᶠ times_form (partial w (sides lead rule.now.c sign rule.now.right)) form.now) }
    ensures past { IfErr result (λ fail. IsFormCoefficientCause fail
        (each_coefficient absolute sum.old +ᶠ times_form (partial w (absolute (sides lead rule.now.c sign rule.now.right)))
        (each_coefficient absolute form.now))) }
{
    // Without terms there is nothing to multiply, so the derivative may be as large as it likes.
    if form.terms().len() == 0 {
        return Ok(());
    }
    let slope = derivative_of_sides(alloc, rule, lead, sign, w)?;
    put_products(sum, alloc, &slope, form)
}

/// Adds a form times a polynomial.
fn put_products(
    sum: &mut SymForm,
    alloc: Global,
    slope: &JetPoly,
    form: &SymForm,
) -> Result<(), PolyFail>
    ensures sum { OnOk result (sum.new ≡ sum.old +ᶠ times_form slope.now form.now) }
    ensures past { IfErr result (λ fail. IsFormCoefficientCause fail
        (each_coefficient absolute sum.old +ᶠ times_form (absolute slope.now) (each_coefficient absolute form.now))) }
{
    for term in form.terms() {
        put_product(sum, alloc, slope, term)?;
    }
    Ok(())
}

/// Adds a polynomial times a term of a form.
fn put_product(
    sum: &mut SymForm,
    alloc: Global,
    slope: &JetPoly,
    term: &(Der, JetPoly),
) -> Result<(), PolyFail>
    ensures sum { OnOk result (sum.new ≡ sum.old +ᶠ form_term (derivative_of term.now.0) (slope.now *ᴾ term.now.1)) }
    ensures past { IfErr result (λ fail. IsFormCoefficientCause fail
        (each_coefficient absolute sum.old +ᶠ form_term (derivative_of term.now.0) (absolute slope.now *ᴾ absolute term.now.1))) }
{
    let product = slope.mul(alloc, &term.1)?;
    sum.put(alloc, term.0, product)
}
