// The terms of the parts of a field, copied once and read by many brackets.
ghost use Rattle.std.specs.Prelude.{◌≡◌, IfOk};
ghost use Rattle.lie_brackets.specs.FieldTerms.{field_of_terms, AreInOrder};

use lie_bytes::NoMemory;
use lie_jet::Field;
use lie_ring::{Mono, Polynomial, Whole};
use std::alloc::Global;

/// For each part the list of its terms.
pub fn field_terms(alloc: Global, field: &Field) -> Result<Vec<Vec<(Mono, Whole)>>, NoMemory>
    requires { field.now.denominator ≡ 1 }
    ensures field { IfOk result (λ made. field_of_terms made.items ≡ field.now) }
    ensures ordered { IfOk result (λ made. AreInOrder made.items) }
{
    let mut parts = Vec::new(alloc);
    for part in field.parts() {
        let terms = part.terms(alloc)?;
        parts.push(terms)?;
    }
    Ok(parts)
}
