// One prolonged coefficient of the field of unknown functions, made from the one of one order less.
ghost use Rattle.std.specs.Prelude.{◌≡◌, ◌+◌, ◌<◌, [], suc, negsuc, take, IfOk, IfErr, OnOk};
ghost use Rattle.lie_math.specs.Limits.{absolute};
ghost use Rattle.lie_math.specs.LinearForm.{◌+ᶠ◌, each_coefficient, times_form};
ghost use Rattle.lie_math.specs.Polynomial.{constant};
ghost use Rattle.lie_geometry.specs.SymbolicProlongation.{symbolic_total, symbolic_coefficient_at, unknown as unknown_at};
ghost use Rattle.lie_systems.specs.Bulk.{IsFormWithinLimits};
ghost use Rattle.lie_jet.specs.Limits.{greatest_written_order};
ghost use Rattle.lie_jet.specs.Derivatives.{derivative_of};
ghost use Rattle.lie_form.specs.FormLimits.{IsFormCoefficientCause, HasJetsUpTo, HasOrdersUpTo};
ghost use Rattle.lie_jet.specs.Jets.{coordinate_of, IsJet};
ghost use Rattle.lie_symbolic.specs.SymbolicBulks.{symbolic_multiple, symbolic_multiples};

use lie_bytes::NoMemory;
use lie_form::{SymForm, put_derived, sum_of_totals};
use lie_jet::{Der, Jet, Space, jet_number, lowered, raise_jet, signed_variable};
use lie_ring::{PolyFail, Ring, Whole, constant_polynomial};
use std::alloc::Global;

/// The prolonged coefficient at a jet of order at most 6.
pub fn symbolic_coefficient(alloc: Global, space: Space, jet: &Jet) -> Result<SymForm, NoMemory>
    requires { IsJet space greatest_written_order jet.now }
    ensures { IfOk result (λ made. made ≡ symbolic_coefficient_at space (coordinate_of space jet.now)) }
{
    match lowered(space, jet) {
        Some((k, lower)) => {
            let before = symbolic_coefficient(alloc, space, &lower)?;
            symbolic_step(alloc, space, k, &lower, &before)
        }
        None => component(alloc, space.p + jet.dep),
    }
}

/// A derivative of order 0: the component of the field at a variable is the unknown with the next number.
fn unknown(variable: u8) -> Der
    ensures { derivative_of result ≡ record { unknown = suc variable; counts = [] } }
{
    Der {
        unknown: u32::from(variable) + 1,
        counts: [0; 8],
    }
}

/// The component of the field of unknown functions at a variable: the unknown with the next number.
pub fn component(alloc: Global, variable: u8) -> Result<SymForm, NoMemory>
    ensures { IfOk result (λ made. made ≡ unknown_at variable) }
{
    let one = constant_polynomial(alloc, Whole::one())?;
    let mut form = SymForm::zero(alloc);
    match form.put(alloc, unknown(variable), one) {
        Ok(()) => Ok(form),
        Err(PolyFail::NoMemory) => Err(NoMemory),
        Err(PolyFail::Past(_)) => unreachable!(),
    }
}

/// The step of the recursion from the coefficient at the jet to the one at the jet derived by `k`. No limit is passed, since the
/// result with absolute values and plus signs, in which nothing cancels, is within them.
fn symbolic_step(
    alloc: Global,
    space: Space,
    k: u8,
    jet: &Jet,
    before: &SymForm,
) -> Result<SymForm, NoMemory>
    requires within { k < space.p }
    requires jet { IsJet space 11 jet.now }
    requires jets { HasJetsUpTo space 11 before.now }
    requires orders { HasOrdersUpTo 63 before.now }
    requires limits { IsFormWithinLimits (symbolic_total space k (each_coefficient absolute before.now)
        +ᶠ symbolic_multiples space k jet.now.dep (take space.p jet.now.counts)) }
    ensures { IfOk result (λ made. made ≡ symbolic_total space k before.now +ᶠ times_form (constant (negsuc 0))
        (symbolic_multiples space k jet.now.dep (take space.p jet.now.counts))) }
{
    match with_multiples(alloc, space, k, jet, before) {
        Ok(made) => Ok(made),
        Err(PolyFail::NoMemory) => Err(NoMemory),
        Err(PolyFail::Past(_)) => unreachable!(),
    }
}

/// The total derivative by `k` minus the sum of the multiples.
fn with_multiples(
    alloc: Global,
    space: Space,
    k: u8,
    jet: &Jet,
    before: &SymForm,
) -> Result<SymForm, PolyFail>
    requires within { k < space.p }
    requires jet { IsJet space 11 jet.now }
    requires jets { HasJetsUpTo space 11 before.now }
    requires orders { HasOrdersUpTo 63 before.now }
    ensures value { IfOk result (λ made. made ≡ symbolic_total space k before.now +ᶠ times_form (constant (negsuc 0))
        (symbolic_multiples space k jet.now.dep (take space.p jet.now.counts))) }
    ensures past { IfErr result (λ fail. IsFormCoefficientCause fail (symbolic_total space k (each_coefficient absolute before.now)
        +ᶠ symbolic_multiples space k jet.now.dep (take space.p jet.now.counts))) }
{
    let mut sum = sum_of_totals(alloc, space, k, before)?;
    for i in 0..space.p {
        put_multiple(&mut sum, alloc, space, k, jet, i)?;
    }
    Ok(sum)
}

/// Adds the negative of the jet derived by `i` times the total derivative by `k` of the `i`-th component.
fn put_multiple(
    sum: &mut SymForm,
    alloc: Global,
    space: Space,
    k: u8,
    jet: &Jet,
    i: u8,
) -> Result<(), PolyFail>
    requires within { k < space.p }
    requires jet { IsJet space 11 jet.now }
    requires variable { i < space.p }
    ensures sum { OnOk result (sum.new ≡ sum.old +ᶠ times_form (constant (negsuc 0))
        (symbolic_multiple space k jet.now.dep (take space.p jet.now.counts) i)) }
    ensures past { IfErr result (λ fail. IsFormCoefficientCause fail (each_coefficient absolute sum.old
        +ᶠ symbolic_multiple space k jet.now.dep (take space.p jet.now.counts) i)) }
{
    let raised = jet_number(space, &raise_jet(space, jet, i));
    let factor = signed_variable(alloc, raised, Whole::one().neg())?;
    put_derived(sum, alloc, space, k, &unknown(i), &factor)
}
