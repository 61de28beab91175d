// Polynomials of one term, in any representation.
ghost use Rattle.std.specs.Prelude.{◌≡◌, IfOk};
ghost use Rattle.lie_math.specs.Limits.{HasLowExponents};
ghost use Rattle.lie_math.specs.Polynomial.{term, constant, variable};

use crate::failures::PolyFail;
use crate::monomial::Mono;
use crate::polynomial::Polynomial;
use crate::ring::Ring;
use crate::whole::Whole;
use lie_bytes::NoMemory;
use std::alloc::Global;

/// A number times a monomial. It is never past a limit.
pub fn term_polynomial<P: Polynomial<Whole>>(
    alloc: Global,
    mono: Mono,
    number: Whole,
) -> Result<P, NoMemory>
    requires { HasLowExponents mono }
    ensures { IfOk result (λ made. P.poly made ≡ term mono number) }
{
    number.fits();
    match P::of_terms(alloc, &[(mono, number)]) {
        Ok(made) => Ok(made),
        Err(PolyFail::NoMemory) => Err(NoMemory),
        Err(PolyFail::Past(_)) => unreachable!(),
    }
}

/// A number as a polynomial.
pub fn constant_polynomial<P: Polynomial<Whole>>(
    alloc: Global,
    number: Whole,
) -> Result<P, NoMemory>
    ensures { IfOk result (λ made. P.poly made ≡ constant number) }
{
    term_polynomial(alloc, Mono::one(alloc), number)
}

/// A variable as a polynomial.
pub fn variable_polynomial<P: Polynomial<Whole>>(alloc: Global, number: u32) -> Result<P, NoMemory>
    ensures { IfOk result (λ made. P.poly made ≡ variable number) }
{
    term_polynomial(alloc, Mono::variable(alloc, number), Whole::one())
}
