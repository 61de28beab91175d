// Monomials up to a degree.
ghost use Rattle.std.specs.Prelude.{◌≡◌, ◌≤◌, ◌+◌, ◌++◌, IfOk, OnOk};
ghost use Rattle.std.specs.List.{AllByRecursion as Every};
ghost use Rattle.lie_math.specs.Monomial.{degree, power_of, ◌·◌};
ghost use Rattle.lie_degree.specs.Columns.{with_powers, with_variable, monomials_to, greatest_degree};

use lie_algebra::degree_of;
use lie_bytes::NoMemory;
use lie_ring::{Mono, PolyFail};
use std::alloc::Global;

/// The product of a power of a variable with a monomial.
fn product_with_power(alloc: Global, var: u8, exponent: u32, mono: &Mono) -> Result<Mono, NoMemory>
    requires { exponent + degree mono.now ≤ greatest_degree }
    ensures { IfOk result (λ made. made ≡ power_of var exponent · mono.now) }
{
    match Mono::power(alloc, u32::from(var), exponent).times(alloc, mono) {
        Ok(made) => Ok(made),
        Err(PolyFail::NoMemory) => Err(NoMemory),
        Err(PolyFail::Past(_)) => unreachable!(),
    }
}

/// Puts the products of a monomial with the powers of a variable behind others, up to a degree.
fn push_powers(
    monos: &mut Vec<Mono>,
    alloc: Global,
    mono: &Mono,
    var: u8,
    highest: u8,
) -> Result<(), NoMemory>
    requires low { degree mono.now ≤ highest }
    requires highest { highest ≤ greatest_degree }
    ensures { OnOk result (monos.new.items ≡ monos.old.items ++ with_powers var highest mono.now) }
{
    let most = (u128::from(highest) - degree_of(mono)) as u32;
    for exponent in 0..most + 1 {
        monos.push(product_with_power(alloc, var, exponent, mono)?)?;
    }
    Ok(())
}

/// The products of monomials with the powers of a variable, up to a degree.
fn with_variable(alloc: Global, monos: &[Mono], var: u8, highest: u8) -> Result<Vec<Mono>, NoMemory>
    requires low { Every (λ m. degree m ≤ highest) monos.now }
    requires highest { highest ≤ greatest_degree }
    ensures { IfOk result (λ made. made.items ≡ with_variable var highest monos.now) }
{
    let mut made = Vec::new(alloc);
    for mono in monos {
        push_powers(&mut made, alloc, mono, var, highest)?;
    }
    Ok(made)
}

/// The monomials in the first variables of degree at most `highest`.
pub fn monomials_to(alloc: Global, variables: u8, highest: u8) -> Result<Vec<Mono>, NoMemory>
    requires { highest ≤ greatest_degree }
    ensures { IfOk result (λ made. made.items ≡ monomials_to variables highest) }
{
    let mut monos = Vec::new(alloc);
    monos.push(Mono::one(alloc))?;
    for var in 0..variables {
        let next = with_variable(alloc, monos.as_slice(), var, highest)?;
        monos = next;
    }
    Ok(monos)
}
