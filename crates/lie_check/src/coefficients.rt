// The coefficients of the prolonged field at some coordinates, by the numbers of these.
ghost use Rattle.std.specs.Prelude.{◌≡◌, ◌≤◌, ◌++◌, take, IfOk, IfErr, OnOk};
ghost use Rattle.lie_math.specs.Counts.{order as order_of_counts};
ghost use Rattle.lie_math.specs.Limits.{IsWithinLimits};
ghost use Rattle.lie_math.specs.VectorField.{component};
ghost use Rattle.lie_geometry.specs.Coordinates.{coordinates_up_to, number as number_of};
ghost use Rattle.lie_geometry.specs.Invariance.{IsFieldOn};
ghost use Rattle.lie_geometry.specs.Prolongation.{coefficient_at};
ghost use Rattle.lie_prolong.specs.Bulks.{bulk_at};
ghost use Rattle.lie_jet.specs.Limits.{greatest_jet_order, greatest_written_order};
ghost use Rattle.lie_jet.specs.JetLists.{HoldsUpTo};
ghost use Rattle.lie_jet.specs.Jets.{coordinate_of, IsJet};
ghost use Rattle.lie_check.specs.Coefficients.{coefficients_among as those_among, where_among, IsProlongationCause};

use lie_bytes::NoMemory;
use lie_jet::{Field, Jet, JetPoly, Space, jet_number, jets_up_to};
use lie_prolong::{bounded_coefficient, is_bounded_field, prolong_field};
use lie_ring::{PolyFail, Polynomial};
use std::alloc::Global;

/// Puts an equal polynomial with a number behind others, where the number is among some.
fn push_copy(
    made: &mut Vec<(u32, JetPoly)>,
    alloc: Global,
    numbers: &[u32],
    number: u32,
    p: &JetPoly,
) -> Result<(), NoMemory>
    ensures { OnOk result (made.new.items ≡ made.old.items ++ where_among numbers.now (number, p.now)) }
{
    if numbers.contains(&number) {
        made.push((number, p.copy(alloc)?))?;
    }
    Ok(())
}

/// Puts the coefficient at a jet with its number behind others, where the number is among some. It is made there alone.
fn push_bounded(
    made: &mut Vec<(u32, JetPoly)>,
    alloc: Global,
    space: Space,
    field: &Field,
    numbers: &[u32],
    jet: &Jet,
) -> Result<(), NoMemory>
    requires jet { IsJet space greatest_jet_order jet.now }
    requires field { IsFieldOn space field.now }
    requires limits { HoldsUpTo space (order_of_counts (take space.p jet.now.counts))
        (λ c. IsWithinLimits (bulk_at space (component field.now) c)) }
    ensures { OnOk result (made.new.items ≡ made.old.items ++ where_among numbers.now
        (number_of space (coordinate_of space jet.now), coefficient_at space (component field.now) (coordinate_of space jet.now))) }
{
    let number = jet_number(space, jet);
    if numbers.contains(&number) {
        made.push((number, bounded_coefficient(alloc, space, field, jet)?))?;
    }
    Ok(())
}

/// The coefficients at the independent variables, where their numbers are among some.
fn first_coefficients(
    alloc: Global,
    space: Space,
    field: &Field,
    numbers: &[u32],
) -> Result<Vec<(u32, JetPoly)>, NoMemory>
    requires { IsFieldOn space field.now }
    ensures { IfOk result (λ made. made.items ≡ those_among space (component field.now) numbers.now space.p) }
{
    let mut made = Vec::new(alloc);
    for i in 0..space.p {
        push_copy(
            &mut made,
            alloc,
            numbers,
            u32::from(i),
            &field.parts()[usize::from(i)],
        )?;
    }
    Ok(made)
}

/// The same at all coordinates up to an order, from all prolonged coefficients.
fn prolonged_coefficients(
    alloc: Global,
    space: Space,
    field: &Field,
    order: u8,
    numbers: &[u32],
) -> Result<Vec<(u32, JetPoly)>, PolyFail>
    requires low { order ≤ greatest_written_order }
    requires field { IsFieldOn space field.now }
    ensures coefficients { IfOk result (λ made. made.items
        ≡ those_among space (component field.now) numbers.now (coordinates_up_to space order)) }
    ensures fits { OnOk result (HoldsUpTo space order (λ c. IsWithinLimits (bulk_at space (component field.now) c))) }
    ensures past { IfErr result (IsProlongationCause space (component field.now) order) }
{
    let prolonged = prolong_field(alloc, space, field, order)?;
    let mut made = first_coefficients(alloc, space, field, numbers)?;
    for value in &prolonged {
        push_copy(
            &mut made,
            alloc,
            numbers,
            jet_number(space, &value.0),
            &value.1,
        )?;
    }
    Ok(made)
}

/// The same where no bulk of a prolonged coefficient up to the order is past a limit: no other coefficient is made but those on the way
/// to one of these.
fn bounded_coefficients(
    alloc: Global,
    space: Space,
    field: &Field,
    order: u8,
    numbers: &[u32],
) -> Result<Vec<(u32, JetPoly)>, NoMemory>
    requires low { order ≤ greatest_written_order }
    requires field { IsFieldOn space field.now }
    requires limits { HoldsUpTo space order (λ c. IsWithinLimits (bulk_at space (component field.now) c)) }
    ensures { IfOk result (λ made. made.items ≡ those_among space (component field.now) numbers.now (coordinates_up_to space order)) }
{
    let jets = jets_up_to(alloc, space, order)?;
    let mut made = first_coefficients(alloc, space, field, numbers)?;
    for jet in &jets {
        push_bounded(&mut made, alloc, space, field, numbers, jet)?;
    }
    Ok(made)
}

/// The coefficients of the prolonged field at those coordinates up to an order, at most 6, whose numbers are among some, with their
/// numbers. Where the field's own numbers show that none is past a limit, no others are made.
pub fn coefficients_among(
    alloc: Global,
    space: Space,
    field: &Field,
    order: u8,
    numbers: &[u32],
) -> Result<Vec<(u32, JetPoly)>, PolyFail>
    requires low { order ≤ greatest_written_order }
    requires field { IsFieldOn space field.now }
    ensures coefficients { IfOk result (λ made. made.items
        ≡ those_among space (component field.now) numbers.now (coordinates_up_to space order)) }
    ensures fits { OnOk result (HoldsUpTo space order (λ c. IsWithinLimits (bulk_at space (component field.now) c))) }
    ensures past { IfErr result (IsProlongationCause space (component field.now) order) }
{
    if is_bounded_field(alloc, space, field, order)? {
        return Ok(bounded_coefficients(alloc, space, field, order, numbers)?);
    }
    prolonged_coefficients(alloc, space, field, order, numbers)
}
