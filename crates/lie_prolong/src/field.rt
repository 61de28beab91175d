// The prolonged coefficients of a vector field.
ghost use Rattle.std.specs.Prelude.{◌≤◌, IfOk, IfErr, OnOk};
ghost use Rattle.lie_math.specs.Limits.{IsWithinLimits};
ghost use Rattle.lie_math.specs.VectorField.{component};
ghost use Rattle.lie_geometry.specs.Invariance.{IsFieldOn};
ghost use Rattle.lie_geometry.specs.Prolongation.{coefficient_at};
ghost use Rattle.lie_ring.specs.Causes.{IsCause};
ghost use Rattle.lie_prolong.specs.Bulks.{bulk_at};
ghost use Rattle.lie_jet.specs.Limits.{greatest_written_order};
ghost use Rattle.lie_jet.specs.JetLists.{AreValuesUpTo, HoldsUpTo, ComesFirst};

use crate::absolute::absolute_field;
use crate::coefficient::coefficient;
use lie_jet::{Field, Jet, JetPoly, Space, jets_up_to, space_is_small};
use lie_ring::PolyFail;
use std::alloc::Global;

/// The prolonged coefficients of the field times its denominator, at all jets of order 0 to `order`, which is at most 6, in
/// coordinate order (Olver, Applications of Lie Groups to Differential Equations, section 2.3). The field has a part for each
/// independent and each dependent variable, in these variables alone.
///
/// `Past` comes exactly where the bulk of a coefficient is past a limit, and is told of the first such coefficient. The bulk is
/// what the recursion gives of the true coefficient before it with absolute values and plus signs.
pub fn prolong_field(
    alloc: Global,
    space: Space,
    field: &Field,
    order: u8,
) -> Result<Vec<(Jet, JetPoly)>, PolyFail>
    requires low { order ≤ greatest_written_order }
    requires field { IsFieldOn space field.now }
    ensures coefficients { IfOk result (λ made. AreValuesUpTo space order (coefficient_at space (component field.now)) made.items) }
    ensures fits { OnOk result (HoldsUpTo space order (λ c. IsWithinLimits (bulk_at space (component field.now) c))) }
    ensures past { IfErr result (λ fail. ComesFirst space order (λ c. IsWithinLimits (bulk_at space (component field.now) c))
        (λ c. IsCause fail (bulk_at space (component field.now) c))) }
{
    space_is_small(space);
    let jets = jets_up_to(alloc, space, order)?;
    let absolute = absolute_field(alloc, field)?;
    let mut made = Vec::new(alloc);
    for jet in &jets {
        let next = coefficient(alloc, space, field, &absolute, made.as_slice(), jet)?;
        made.push((*jet, next))?;
    }
    Ok(made)
}
