// Sums that are within the limits.
ghost use Rattle.std.specs.Prelude.{◌≡◌, IfOk};
ghost use Rattle.lie_math.specs.Limits.{IsWithinLimits, absolutes};
ghost use Rattle.lie_math.specs.Polynomial.{polynomial_of};

use lie_bytes::NoMemory;
use lie_jet::JetPoly;
use lie_poly::Flat;
use lie_ring::{Mono, PolyFail, Polynomial, Whole};
use std::alloc::Global;

/// The sum of terms; with the absolute values of their numbers it is within the limits.
pub fn sum_within_limits(alloc: Global, terms: &[(Mono, Whole)]) -> Result<JetPoly, NoMemory>
    requires { IsWithinLimits (polynomial_of (absolutes terms.now)) }
    ensures { IfOk result (λ sum. sum ≡ polynomial_of terms.now) }
{
    match Flat::of_terms(alloc, terms) {
        Ok(sum) => Ok(sum),
        Err(PolyFail::NoMemory) => Err(NoMemory),
        Err(PolyFail::Past(_)) => unreachable!(),
    }
}
