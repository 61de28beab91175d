// Whether a field's own numbers show that no prolonged coefficient is past a limit.
ghost use Rattle.std.specs.Prelude.{◌≤◌, suc, IsTrue, ◌↔◌, IfOk};
ghost use Rattle.lie_math.specs.Limits.{IsWithinLimits, greatest_exponent, greatest_term_count};
ghost use Rattle.lie_math.specs.VectorField.{component};
ghost use Rattle.lie_jet.specs.JetLists.{HoldsUpTo};
ghost use Rattle.lie_prolong.specs.Bulks.{bulk_at};
ghost use Rattle.lie_prolong.specs.FieldBounds.{AreLowBounds, IsBoundedField};

use crate::norms::{MAX_EXPONENT, MAX_TERMS, degree_of, norm_of};
use lie_bytes::NoMemory;
use lie_jet::{Field, Space, space_is_small};
use lie_ring::Polynomial;
use std::alloc::Global;

/// Whether the bounds of the prolonged coefficients up to an order are within the limits, by the greatest norm and the greatest degree
/// of a part.
fn are_low_bounds(space: Space, order: u8, norm: u128, degree: u128) -> bool
    requires norm { norm ≤ suc greatest_term_count }
    requires degree { degree ≤ suc greatest_exponent }
    ensures { IsTrue result ↔ AreLowBounds space order norm degree }
{
    let mut bound = norm;
    for _ in 0..order {
        if bound > MAX_TERMS {
            return false;
        }
        bound = (degree + 1) * bound + u128::from(space.p) * (degree * norm);
    }
    bound <= MAX_TERMS && degree < MAX_EXPONENT
}

/// Whether the numbers of the field show that no prolonged coefficient up to an order is past a limit: with the greatest norm M and the
/// greatest degree D of its parts, N(order) is at most 1,000,000 and D + 1 at most 65,535, where N(0) = M and
/// N(k + 1) = (D + 1)*N(k) + p*D*M.
pub fn is_bounded_field(
    alloc: Global,
    space: Space,
    field: &Field,
    order: u8,
) -> Result<bool, NoMemory>
    ensures bound { IfOk result (λ bounded. IsTrue bounded ↔ IsBoundedField space order field.now) }
    ensures within { IfOk result (λ bounded. IsTrue bounded
        → HoldsUpTo space order (λ c. IsWithinLimits (bulk_at space (component field.now) c))) }
{
    space_is_small(space);
    let mut norm: u128 = 0;
    let mut degree: u128 = 0;
    for part in field.parts() {
        let terms = part.terms(alloc)?;
        norm = norm.max(norm_of(terms.as_slice()));
        degree = degree.max(degree_of(terms.as_slice()));
    }
    Ok(are_low_bounds(space, order, norm, degree))
}
