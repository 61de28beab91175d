// One prolonged coefficient, made from the one before it.
ghost use Rattle.std.specs.Prelude.{◌≡◌, ◌+◌, ◌<◌, pos, ℤ, unsigned_abs, length, take, IfOk, IfErr, OnOk};
ghost use Rattle.lie_math.specs.Derivation.{is_below};
ghost use Rattle.lie_math.specs.Limits.{IsWithinLimits, absolute};
ghost use Rattle.lie_math.specs.Polynomial.{constant, variable, negᴾ, ◌+ᴾ◌, ◌*ᴾ◌};
ghost use Rattle.lie_math.specs.VectorField.{component};
ghost use Rattle.lie_math.specs.Variables.{IsIn};
ghost use Rattle.lie_geometry.specs.Coordinates.{coordinates_up_to, number as number_of};
ghost use Rattle.lie_geometry.specs.Invariance.{IsFieldOn};
ghost use Rattle.lie_geometry.specs.Prolongation.{total_derivative, coefficient_at};
ghost use Rattle.lie_ring.specs.Causes.{IsCause};
ghost use Rattle.lie_jet.specs.Limits.{greatest_jet_order};
ghost use Rattle.lie_jet.specs.Jets.{coordinate_of, IsJet, IsSmall};
ghost use Rattle.lie_prolong.specs.Bulks.{absolute_field as absolute_field_of, multiples, bulk_at};
ghost use Rattle.lie_jet.specs.JetLists.{AreFirstValues};

use lie_bytes::NoMemory;
use lie_jet::{
    Field, Jet, JetPoly, Space, absolute_polynomial, jet_number, lowered, raise_jet, total,
};
use lie_ring::{PolyFail, Polynomial, Ring, Whole, variable_polynomial};
use std::alloc::Global;

/// The prolonged coefficient at the jet, where those at all jets before it are given, and the field with absolute values.
pub fn coefficient(
    alloc: Global,
    space: Space,
    field: &Field,
    absolute_field: &Field,
    before: &[(Jet, JetPoly)],
    jet: &Jet,
) -> Result<JetPoly, PolyFail>
    requires field { IsFieldOn space field.now }
    requires absolute { absolute_field.now ≡ absolute_field_of field.now }
    requires before { AreFirstValues space (coefficient_at space (component field.now)) before.now }
    requires jet { IsJet space greatest_jet_order jet.now }
    requires next { number_of space (coordinate_of space jet.now) ≡ space.p + length before.now }
    ensures coefficient { IfOk result (λ made. made ≡ coefficient_at space (component field.now) (coordinate_of space jet.now)) }
    ensures fits { OnOk result (IsWithinLimits (bulk_at space (component field.now) (coordinate_of space jet.now))) }
    ensures past { IfErr result (λ fail. IsCause fail (bulk_at space (component field.now) (coordinate_of space jet.now))) }
{
    match lowered(space, jet) {
        Some((k, lower)) => {
            let place = jet_number(space, &lower) - u32::from(space.p);
            derived(
                alloc,
                space,
                field,
                absolute_field,
                k,
                &lower,
                &before[place as usize].1,
            )
        }
        None => copy_part(alloc, &field.parts()[usize::from(space.p + jet.dep)]),
    }
}

/// An equal polynomial.
fn copy_part(alloc: Global, part: &JetPoly) -> Result<JetPoly, PolyFail>
    ensures value { IfOk result (λ made. made ≡ part.now) }
    ensures fits { OnOk result (IsWithinLimits (absolute part.now)) }
    ensures past { IfErr result (λ fail. IsCause fail (absolute part.now)) }
{
    part.is_within_limits();
    Ok(part.copy(alloc)?)
}

/// The step of the recursion from the coefficient at the jet to the one at the jet derived by `k`: first with absolute values,
/// where nothing cancels, and then truly.
fn derived(
    alloc: Global,
    space: Space,
    field: &Field,
    absolute_field: &Field,
    k: u8,
    jet: &Jet,
    before: &JetPoly,
) -> Result<JetPoly, PolyFail>
    requires within { k < space.p }
    requires field { IsFieldOn space field.now }
    requires absolute { absolute_field.now ≡ absolute_field_of field.now }
    requires jet { IsJet space 11 jet.now }
    requires low { IsIn (is_below (coordinates_up_to space 11)) before.now }
    ensures value { IfOk result (λ made. made ≡ total_derivative space k before.now +ᴾ negᴾ
        (multiples space (component field.now) k jet.now.dep (take space.p jet.now.counts))) }
    ensures fits { OnOk result (IsWithinLimits (total_derivative space k (absolute before.now) +ᴾ multiples space
        (λ i. absolute (component field.now i)) k jet.now.dep (take space.p jet.now.counts))) }
    ensures past { IfErr result (λ fail. IsCause fail (total_derivative space k (absolute before.now) +ᴾ multiples space
        (λ i. absolute (component field.now i)) k jet.now.dep (take space.p jet.now.counts))) }
{
    let absolute_before = absolute_polynomial(alloc, before)?;
    let bulk = step(
        alloc,
        space,
        absolute_field,
        k,
        jet,
        &absolute_before,
        Whole::one(),
    )?;
    bulk.is_within_limits();
    Ok(step_within_limits(alloc, space, field, k, jet, before)?)
}

/// The step of the recursion, truly. No limit is passed, since the step with absolute values and plus signs, in which nothing cancels, is
/// within them.
pub fn step_within_limits(
    alloc: Global,
    space: Space,
    field: &Field,
    k: u8,
    jet: &Jet,
    before: &JetPoly,
) -> Result<JetPoly, NoMemory>
    requires within { k < space.p }
    requires field { IsFieldOn space field.now }
    requires jet { IsJet space 11 jet.now }
    requires low { IsIn (is_below (coordinates_up_to space 11)) before.now }
    requires limits { IsWithinLimits (total_derivative space k (absolute before.now) +ᴾ multiples space
        (λ i. absolute (component field.now i)) k jet.now.dep (take space.p jet.now.counts)) }
    ensures { IfOk result (λ made. made ≡ total_derivative space k before.now +ᴾ negᴾ
        (multiples space (component field.now) k jet.now.dep (take space.p jet.now.counts))) }
{
    match step(alloc, space, field, k, jet, before, Whole::one().neg()) {
        Ok(made) => Ok(made),
        Err(PolyFail::NoMemory) => Err(NoMemory),
        Err(PolyFail::Past(_)) => unreachable!(),
    }
}

/// The total derivative by `k`, plus the sign, 1 or -1, times the sum of the multiples.
fn step(
    alloc: Global,
    space: Space,
    field: &Field,
    k: u8,
    jet: &Jet,
    before: &JetPoly,
    sign: Whole,
) -> Result<JetPoly, PolyFail>
    requires within { k < space.p }
    requires field { IsFieldOn space field.now }
    requires jet { IsJet space 11 jet.now }
    requires low { IsIn (is_below (coordinates_up_to space 11)) before.now }
    requires unit { unsigned_abs sign ≡ 1 }
    ensures value { IfOk result (λ made. made ≡ total_derivative space k before.now +ᴾ constant sign *ᴾ multiples space
        (component field.now) k jet.now.dep (take space.p jet.now.counts)) }
    ensures past { IfErr result (λ fail. IsCause fail (total_derivative space k (absolute before.now) +ᴾ multiples space
        (λ i. absolute (component field.now i)) k jet.now.dep (take space.p jet.now.counts))) }
{
    let derivative = total(alloc, space, k, before)?;
    let sum = sum_of_multiples(alloc, space, field, k, jet)?;
    derivative.add(alloc, &sum.scale(alloc, &sign)?)
}

/// The sum, over the independent variables, of the total derivatives of the components times the jet derived once more.
fn sum_of_multiples(
    alloc: Global,
    space: Space,
    field: &Field,
    k: u8,
    jet: &Jet,
) -> Result<JetPoly, PolyFail>
    requires within { k < space.p }
    requires field { IsFieldOn space field.now }
    requires jet { IsJet space 11 jet.now }
    ensures sum { IfOk result (λ made. made ≡ multiples space (component field.now) k jet.now.dep (take space.p jet.now.counts)) }
    ensures past { IfErr result (λ fail. IsCause fail (multiples space (λ i. absolute (component field.now i)) k jet.now.dep
        (take space.p jet.now.counts))) }
{
    let mut sum = JetPoly::zero(alloc);
    for i in 0..space.p {
        let raised = jet_number(space, &raise_jet(space, jet, i));
        let part = multiple(alloc, space, &field.parts()[usize::from(i)], k, raised)?;
        sum = part.add(alloc, &sum)?;
    }
    Ok(sum)
}

/// The total derivative of a polynomial, times a variable.
fn multiple(alloc: Global, space: Space, p: &JetPoly, k: u8, var: u32) -> Result<JetPoly, PolyFail>
    requires small { IsSmall space }
    requires within { k < space.p }
    requires low { IsIn (is_below (coordinates_up_to space 11)) p.now }
    ensures product { IfOk result (λ made. made ≡ total_derivative space k p.now *ᴾ variable var) }
    ensures past { IfErr result (λ fail. IsCause fail (total_derivative space k (absolute p.now) *ᴾ variable var)) }
{
    let derivative = total(alloc, space, k, p)?;
    let variable: JetPoly = variable_polynomial(alloc, var)?;
    derivative.mul(alloc, &variable)
}
