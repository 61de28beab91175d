// Variables as polynomials.
ghost use Rattle.std.specs.Prelude.{◌≡◌, ◌<◌, replicate, unsigned_abs, IfOk, IfErr};
ghost use Rattle.lie_math.specs.Counts.{raise};
ghost use Rattle.lie_math.specs.Monomial.{single as variable_alone};
ghost use Rattle.lie_math.specs.Polynomial.{term};
ghost use Rattle.lie_geometry.specs.Prolongation.{jet_variable};
ghost use Rattle.lie_poly.specs.Failures.{IsStarved};

use crate::jet::Jet;
use crate::numbering::jet_number;
use crate::slopes::raise_jet;
use crate::space::{Space, space_is_small};
use crate::totals::JetPoly;
use lie_ring::{Mono, PolyFail, Ring, Whole, term_polynomial};
use std::alloc::Global;

/// The variable with a number, times 1 or -1.
pub fn signed_variable(alloc: Global, number: u32, sign: Whole) -> Result<JetPoly, PolyFail>
    requires unit { unsigned_abs sign ≡ 1 }
    ensures variable { IfOk result (λ p. p ≡ term (variable_alone number) sign) }
    ensures memory { IfErr result IsStarved }
{
    Ok(term_polynomial(alloc, Mono::variable(alloc, number), sign)?)
}

/// The dependent variable `b`, derived by the independent variable `i`.
pub fn dependent_slope(alloc: Global, space: Space, i: u8, b: u8) -> Result<JetPoly, PolyFail>
    requires within { i < space.p }
    requires dependent { b < space.q }
    ensures slope { IfOk result (λ p. p ≡ jet_variable space b (raise i (replicate space.p 0))) }
    ensures memory { IfErr result IsStarved }
{
    space_is_small(space);
    let jet = Jet {
        dep: b,
        counts: [0; 4],
    };
    let number = jet_number(space, &raise_jet(space, &jet, i));
    signed_variable(alloc, number, Whole::one())
}
