// Derivatives of single monomials of a low degree.
ghost use Rattle.std.specs.Prelude.{◌≡◌, ◌≤◌, pos, IfOk, OnOk};
ghost use Rattle.std.specs.Fn.{iterate};
ghost use Rattle.lie_math.specs.Counts.{partials};
ghost use Rattle.lie_math.specs.Monomial.{degree};
ghost use Rattle.lie_math.specs.PartialDerivative.{partial};
ghost use Rattle.lie_math.specs.Polynomial.{term};
ghost use Rattle.lie_degree.specs.Columns.{greatest_degree};
ghost use Rattle.lie_degree.specs.SmallTerms.{IsSmall};

use lie_bytes::NoMemory;
use lie_jet::JetPoly;
use lie_ring::{Mono, PolyFail, Polynomial, Ring, Whole, term_polynomial};
use std::alloc::Global;

/// The derivative of a small term by a variable.
fn derived_once(alloc: Global, small: &JetPoly, var: u8) -> Result<JetPoly, NoMemory>
    requires { IsSmall small.now }
    ensures { IfOk result (λ made. made ≡ partial var small.now) }
{
    match small.derive(alloc, u32::from(var)) {
        Ok(made) => Ok(made),
        Err(PolyFail::NoMemory) => Err(NoMemory),
        Err(PolyFail::Past(_)) => unreachable!(),
    }
}

/// The derivative of a small term as often by a variable as `times` says.
fn derived_often(alloc: Global, small: JetPoly, var: u8, times: u8) -> Result<JetPoly, NoMemory>
    requires { IsSmall small }
    ensures derivative { IfOk result (λ made. made ≡ iterate (partial var) times small) }
    ensures small { IfOk result IsSmall }
{
    let mut made = small;
    for _ in 0..times {
        made = derived_once(alloc, &made, var)?;
    }
    Ok(made)
}

/// The derivative of a monomial, as often by each variable as the counts say.
pub fn derived_monomial(alloc: Global, mono: &Mono, counts: &[u8; 8]) -> Result<JetPoly, NoMemory>
    requires { degree mono.now ≤ greatest_degree }
    ensures derivative { IfOk result (λ made. made ≡ partials counts.now (term mono.now (pos 1))) }
{
    let mut made = term_polynomial(alloc, mono.copy(alloc)?, Whole::one())?;
    let mut var = 8;
    while var > 0 {
        var -= 1;
        made = derived_often(alloc, made, var, counts[usize::from(var)])?;
    }
    Ok(made)
}
