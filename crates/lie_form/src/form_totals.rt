// The total derivative of a linear form.
ghost use Rattle.std.specs.Prelude.{◌≡◌, ◌<◌, ◌≤◌, IfOk, IfErr, OnOk};
ghost use Rattle.lie_math.specs.Counts.{order};
ghost use Rattle.lie_math.specs.Derivation.{is_below};
ghost use Rattle.lie_math.specs.Limits.{absolute};
ghost use Rattle.lie_math.specs.LinearForm.{◌+ᶠ◌, each_coefficient};
ghost use Rattle.lie_math.specs.Variables.{IsIn};
ghost use Rattle.lie_geometry.specs.Coordinates.{coordinates_up_to};
ghost use Rattle.lie_geometry.specs.SymbolicProlongation.{symbolic_total};
ghost use Rattle.lie_systems.specs.Bulk.{IsFormWithinLimits};
ghost use Rattle.lie_jet.specs.Derivatives.{derivative_of};
ghost use Rattle.lie_form.specs.FormLimits.{IsFormCause, IsFormCoefficientCause, HasJetsUpTo, HasOrdersUpTo};
ghost use Rattle.lie_form.specs.FormTotals.{dependent_term, derived_term, total_of_term};
ghost use Rattle.lie_jet.specs.Jets.{IsSmall};

use crate::form::SymForm;
use lie_jet::{Der, JetPoly, Space, dependent_slope, raise_derivative, space_is_small, total};
use lie_ring::{PolyFail, Polynomial};
use std::alloc::Global;

/// The total derivative of a linear form by the independent variable `i`, which lies below p: that of each coefficient, and each
/// coefficient times the derivative of its unknown, which is a function of the independent and the dependent variables. The
/// coefficients have jets of order at most 11, and the derivatives an order of at most 63.
///
/// `Past` comes exactly where the total derivative of the form with the absolute values of its coefficients is past a limit.
pub fn total_sym(alloc: Global, space: Space, i: u8, form: &SymForm) -> Result<SymForm, PolyFail>
    requires within { i < space.p }
    requires jets { HasJetsUpTo space 11 form.now }
    requires orders { HasOrdersUpTo 63 form.now }
    ensures total { IfOk result (λ t. t ≡ symbolic_total space i form.now) }
    ensures fits { OnOk result (IsFormWithinLimits (symbolic_total space i (each_coefficient absolute form.now))) }
    ensures past { IfErr result (λ fail. IsFormCause fail (symbolic_total space i (each_coefficient absolute form.now))) }
{
    let absolute = form.absolute(alloc)?;
    let bulk = sum_of_totals(alloc, space, i, &absolute)?;
    bulk.within_limits()?;
    sum_of_totals(alloc, space, i, form)
}

/// The total derivative of a form as `total_sym` has it, where its bulk is not looked at: an error has its cause in a coefficient
/// of the bulk, and a result says nothing of it.
pub fn sum_of_totals(
    alloc: Global,
    space: Space,
    i: u8,
    form: &SymForm,
) -> Result<SymForm, PolyFail>
    requires within { i < space.p }
    requires jets { HasJetsUpTo space 11 form.now }
    requires orders { HasOrdersUpTo 63 form.now }
    ensures total { IfOk result (λ t. t ≡ symbolic_total space i form.now) }
    ensures past { IfErr result (λ fail. IsFormCoefficientCause fail (symbolic_total space i (each_coefficient absolute form.now))) }
{
    space_is_small(space);
    let mut sum = SymForm::zero(alloc);
    for term in form.terms() {
        put_total(&mut sum, alloc, space, i, term)?;
    }
    Ok(sum)
}

/// Adds the total derivative of a polynomial times a derivative.
fn put_total(
    sum: &mut SymForm,
    alloc: Global,
    space: Space,
    i: u8,
    term: &(Der, JetPoly),
) -> Result<(), PolyFail>
    requires small { IsSmall space }
    requires within { i < space.p }
    requires jets { IsIn (is_below (coordinates_up_to space 11)) term.now.1 }
    requires orders { order (derivative_of term.now.0).counts ≤ 63 }
    ensures sum { OnOk result (sum.new ≡ sum.old +ᶠ total_of_term space i (derivative_of term.now.0) term.now.1) }
    ensures past { IfErr result (λ fail. IsFormCoefficientCause fail (each_coefficient absolute sum.old +ᶠ total_of_term space i
        (derivative_of term.now.0) (absolute term.now.1))) }
{
    let derived = total(alloc, space, i, &term.1)?;
    sum.put(alloc, term.0, derived)?;
    put_derived(sum, alloc, space, i, &term.0, &term.1)
}

/// Adds a polynomial times the total derivative, by the independent variable `i`, of a derivative of an unknown: its derivative
/// by the variable itself, and that by each dependent variable times what this becomes. The derivative has an order of at most 63.
/// An error has its cause in a coefficient of the sum with absolute values.
pub fn put_derived(
    sum: &mut SymForm,
    alloc: Global,
    space: Space,
    i: u8,
    der: &Der,
    poly: &JetPoly,
) -> Result<(), PolyFail>
    requires within { i < space.p }
    requires orders { order (derivative_of der.now).counts ≤ 63 }
    ensures sum { OnOk result (sum.new ≡ sum.old +ᶠ derived_term space i (derivative_of der.now) poly.now) }
    ensures past { IfErr result (λ fail. IsFormCoefficientCause fail (each_coefficient absolute sum.old +ᶠ derived_term space i
        (derivative_of der.now) (absolute poly.now))) }
{
    space_is_small(space);
    let same = poly.copy(alloc)?;
    sum.put(alloc, raise_derivative(der, i), same)?;
    for b in 0..space.q {
        put_by_dependent(sum, alloc, space, i, b, der, poly)?;
    }
    Ok(())
}

/// Adds a polynomial times the derivative by the dependent variable `b`, times what that becomes.
fn put_by_dependent(
    sum: &mut SymForm,
    alloc: Global,
    space: Space,
    i: u8,
    b: u8,
    der: &Der,
    poly: &JetPoly,
) -> Result<(), PolyFail>
    requires small { IsSmall space }
    requires within { i < space.p }
    requires dependent { b < space.q }
    requires orders { order (derivative_of der.now).counts ≤ 63 }
    ensures sum { OnOk result (sum.new ≡ sum.old +ᶠ dependent_term space i (derivative_of der.now) poly.now b) }
    ensures past { IfErr result (λ fail. IsFormCoefficientCause fail (each_coefficient absolute sum.old +ᶠ dependent_term space i
        (derivative_of der.now) (absolute poly.now) b)) }
{
    let slope = dependent_slope(alloc, space, i, b)?;
    let product = poly.mul(alloc, &slope)?;
    sum.put(alloc, raise_derivative(der, space.p + b), product)
}
