// Products by powers of polynomials.
ghost use Rattle.std.specs.Prelude.{◌≡◌, pos, IfOk, IfErr};
ghost use Rattle.lie_math.specs.Limits.{absolute};
ghost use Rattle.lie_math.specs.Monomial.{power_of};
ghost use Rattle.lie_math.specs.Polynomial.{0ᴾ, ◌*ᴾ◌, term};
ghost use Rattle.lie_ring.specs.Causes.{IsCause};
ghost use Rattle.lie_reduce.specs.ReducedTerms.{power};

use lie_jet::JetPoly;
use lie_ring::{Mono, PolyFail, Polynomial, Ring, Whole};
use std::alloc::Global;

/// A polynomial times a power of another, which is not 0.
pub fn times_power(
    alloc: Global,
    poly: JetPoly,
    base: &JetPoly,
    exponent: u32,
) -> Result<JetPoly, PolyFail>
    requires { ¬ (base.now ≡ 0ᴾ) }
    ensures product { IfOk result (λ made. made ≡ poly *ᴾ power base.now exponent) }
    ensures past { IfErr result (λ fail. IsCause fail (absolute poly *ᴾ power (absolute base.now) exponent)) }
{
    let mut product = poly;
    for _ in 0..exponent {
        product = product.mul(alloc, base)?;
    }
    Ok(product)
}

/// A polynomial, which is not 0, times a power of a variable.
pub fn times_variable(
    alloc: Global,
    poly: JetPoly,
    number: u32,
    exponent: u32,
) -> Result<JetPoly, PolyFail>
    requires { ¬ (poly ≡ 0ᴾ) }
    ensures product { IfOk result (λ made. made ≡ poly *ᴾ term (power_of number exponent) (pos 1)) }
    ensures past { IfErr result (λ fail. IsCause fail (absolute poly *ᴾ term (power_of number exponent) (pos 1))) }
{
    let mono = Mono::power(alloc, number, exponent);
    let power = JetPoly::of_terms(alloc, &[(mono, Whole::one())])?;
    poly.mul(alloc, &power)
}
