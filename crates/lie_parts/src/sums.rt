// Sums of triples within the limits.
ghost use Rattle.std.specs.Prelude.{◌≡◌, IfOk};
ghost use Rattle.lie_systems.specs.Bulk.{bulk, IsFormWithinLimits};
ghost use Rattle.lie_systems.specs.Triples.{sum_of_triples};
ghost use Rattle.lie_lin.specs.Forms.{triples_of};

use lie_bytes::NoMemory;
use lie_jet::Der;
use lie_lin::{LinEq, of_triples};
use lie_ring::{Mono, PolyFail, Whole};
use std::alloc::Global;

/// A sum of triples within the limits. It fails for want of memory alone.
pub fn sum_of(alloc: Global, triples: &[(Der, Mono, Whole)]) -> Result<LinEq, NoMemory>
    requires { IsFormWithinLimits (bulk (triples_of triples.now)) }
    ensures { IfOk result (λ part. part ≡ sum_of_triples (triples_of triples.now)) }
{
    match of_triples(alloc, triples) {
        Ok(part) => Ok(part),
        Err(PolyFail::NoMemory) => Err(NoMemory),
        Err(PolyFail::Past(_)) => unreachable!(),
    }
}
