// The triples of a condition by their monomials in the jets.
ghost use Rattle.std.specs.Prelude.{◌≡◌, ℕ, ◌≤◌, ◌+◌, IfOk};
ghost use Rattle.lie_geometry.specs.Prolongation.{is_in_z};
ghost use Rattle.lie_systems.specs.Triples.{triples};
ghost use Rattle.lie_parts.specs.Parts.{AreBucketsOf, is_inside, split_triples};

use lie_bytes::NoMemory;
use lie_form::SymForm;
use lie_jet::{Space, space_is_small};
use lie_parts::{Bucket, Inside};
use std::alloc::Global;

/// The number of the variables z.
pub fn count_z(space: Space) -> u32
    ensures count { result ≡ space.p + space.q }
    ensures low { result ≤ 8 }
{
    space_is_small(space);
    u32::from(space.p) + u32::from(space.q)
}

/// The variables z stand inside, and the jets of order 1 or more outside.
fn inside_of(space: Space) -> Inside
    ensures { (v : ℕ) → is_inside result v ≡ is_in_z space v }
{
    let bound = count_z(space);
    let mut inside = [false; 8];
    for var in 0..8u32 {
        inside[var as usize] = var < bound;
    }
    inside
}

/// The triples of a condition by their monomials in the jets of order 1 or more.
pub fn buckets_of(alloc: Global, space: Space, condition: &SymForm) -> Result<Vec<Bucket>, NoMemory>
    ensures { IfOk result (λ buckets. AreBucketsOf (split_triples (is_in_z space) (triples condition.now)) buckets.items) }
{
    lie_parts::buckets_of(alloc, &inside_of(space), condition.terms())
}
