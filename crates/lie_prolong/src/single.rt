// One prolonged coefficient alone, where none is past a limit.
ghost use Rattle.std.specs.Prelude.{◌≡◌, take, IfOk};
ghost use Rattle.lie_math.specs.Counts.{order};
ghost use Rattle.lie_math.specs.Limits.{IsWithinLimits};
ghost use Rattle.lie_math.specs.VectorField.{component};
ghost use Rattle.lie_geometry.specs.Invariance.{IsFieldOn};
ghost use Rattle.lie_geometry.specs.Prolongation.{coefficient_at};
ghost use Rattle.lie_jet.specs.JetLists.{HoldsUpTo};
ghost use Rattle.lie_jet.specs.Jets.{coordinate_of, IsJet};
ghost use Rattle.lie_jet.specs.Limits.{greatest_jet_order};
ghost use Rattle.lie_prolong.specs.Bulks.{bulk_at};

use crate::coefficient::step_within_limits;
use lie_bytes::NoMemory;
use lie_jet::{Field, Jet, JetPoly, Space, lowered};
use lie_ring::Polynomial;
use std::alloc::Global;

/// The prolonged coefficient of the field times its denominator at a jet of order at most 12, made from those alone that are on the way
/// to it: at the jet derived once less, and so on. No bulk of a coefficient up to the order of the jet is past a limit, as
/// `is_bounded_field` tells.
pub fn bounded_coefficient(
    alloc: Global,
    space: Space,
    field: &Field,
    jet: &Jet,
) -> Result<JetPoly, NoMemory>
    requires jet { IsJet space greatest_jet_order jet.now }
    requires field { IsFieldOn space field.now }
    requires limits { HoldsUpTo space (order (take space.p jet.now.counts)) (λ c. IsWithinLimits (bulk_at space (component field.now) c)) }
    ensures { IfOk result (λ made. made ≡ coefficient_at space (component field.now) (coordinate_of space jet.now)) }
{
    match lowered(space, jet) {
        Some((k, lower)) => {
            let before = bounded_coefficient(alloc, space, field, &lower)?;
            step_within_limits(alloc, space, field, k, &lower, &before)
        }
        None => field.parts()[usize::from(space.p + jet.dep)].copy(alloc),
    }
}
