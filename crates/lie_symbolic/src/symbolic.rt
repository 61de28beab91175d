// The prolonged coefficients of the field whose components are unknown functions.
ghost use Rattle.std.specs.Prelude.{◌≡◌, ◌≤◌, ◌<◌, true, IfOk};
ghost use Rattle.std.specs.List.{list_any};
ghost use Rattle.lie_geometry.specs.Coordinates.{coordinate, coordinates_up_to};
ghost use Rattle.lie_geometry.specs.SymbolicProlongation.{symbolic_coefficient_at};
ghost use Rattle.lie_systems.specs.Bulk.{IsFormWithinLimits};
ghost use Rattle.lie_jet.specs.Limits.{greatest_written_order};
ghost use Rattle.lie_jet.specs.JetLists.{HoldsUpTo};
ghost use Rattle.lie_symbolic.specs.SymbolicBulks.{symbolic_bulk_at};
ghost use Rattle.lie_symbolic.specs.SymbolicCoefficients.{coefficient_among, coefficients_among};

use crate::symbolic_coefficient::{component, symbolic_coefficient};
use lie_bytes::NoMemory;
use lie_form::SymForm;
use lie_jet::{Space, jet_of, jets_up_to, space_is_small};
use std::alloc::Global;

/// The bulk of each prolonged coefficient of order 0 to 6 is within the limits.
pub fn coefficients_are_within_limits(space: Space)
    ensures { HoldsUpTo space greatest_written_order (λ c. IsFormWithinLimits (symbolic_bulk_at space c)) }
{
    space_is_small(space);
}

/// The prolonged coefficient at the coordinate with a number, where that is among the numbers; no form elsewhere.
fn coefficient_at(
    alloc: Global,
    space: Space,
    numbers: &[u32],
    number: u32,
) -> Result<SymForm, NoMemory>
    requires { number < coordinates_up_to space greatest_written_order }
    ensures { IfOk result (λ made. made ≡ coefficient_among space numbers.now number) }
{
    if !numbers.contains(&number) {
        return Ok(SymForm::zero(alloc));
    }
    match jet_of(space, number) {
        Some(jet) => symbolic_coefficient(alloc, space, &jet),
        None => component(alloc, number as u8),
    }
}

/// The prolonged coefficients of the field whose components are the unknowns 1 to p + q, functions of the independent and the
/// dependent variables (Olver, Applications of Lie Groups to Differential Equations, section 2.3): at all coordinates of order 0
/// to `order`, which is at most 6, by their numbers, where these are among the numbers given; no form elsewhere.
///
/// No limit can be passed (`coefficients_are_within_limits`).
pub fn prolong_sym(
    alloc: Global,
    space: Space,
    order: u8,
    numbers: &[u32],
) -> Result<Vec<SymForm>, NoMemory>
    requires low { order ≤ greatest_written_order }
    ensures { IfOk result (λ made. made.items ≡ coefficients_among space numbers.now (coordinates_up_to space order)) }
{
    space_is_small(space);
    let jets = jets_up_to(alloc, space, order)?;
    let count = u32::from(space.p) + jets.as_slice().len() as u32;
    let mut made = Vec::new(alloc);
    for number in 0..count {
        let next = coefficient_at(alloc, space, numbers, number)?;
        made.push(next)?;
    }
    Ok(made)
}
