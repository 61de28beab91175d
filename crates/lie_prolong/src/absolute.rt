// The field with the absolute values of its coefficients.
ghost use Rattle.std.specs.Prelude.{◌≡◌, IfOk};
ghost use Rattle.lie_prolong.specs.Bulks.{absolute_field};

use lie_bytes::NoMemory;
use lie_jet::{Field, absolute_polynomial};
use lie_ring::PolyFail;
use std::alloc::Global;

/// The field with the absolute values of all coefficients.
pub fn absolute_field(alloc: Global, field: &Field) -> Result<Field, NoMemory>
    ensures { IfOk result (λ made. made ≡ absolute_field field.now) }
{
    let mut parts = Vec::new(alloc);
    for part in field.parts() {
        match absolute_polynomial(alloc, part) {
            Ok(absolute) => parts.push(absolute)?,
            Err(PolyFail::NoMemory) => return Err(NoMemory),
            Err(PolyFail::Past(_)) => unreachable!(),
        }
    }
    Ok(Field::new(field.den(), parts))
}
