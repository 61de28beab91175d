// Monomials that divide others.
ghost use Rattle.std.specs.Prelude.{◌≡◌, ◌++◌, IfOk, OnOk};
ghost use Rattle.lie_systems.specs.Normalised.{common_factor, without_factor};
ghost use Rattle.lie_lin.specs.Powers.{power_unless_zero};

use lie_bytes::NoMemory;
use lie_ring::Mono;
use std::alloc::Global;

/// Puts a power behind others, unless its exponent is 0.
fn push_power(pairs: &mut Vec<(u32, u32)>, variable: u32, exponent: u32) -> Result<(), NoMemory>
    ensures { OnOk result (pairs.new.items ≡ pairs.old.items ++ power_unless_zero variable exponent) }
{
    if exponent != 0 {
        pairs.push((variable, exponent))?;
    }
    Ok(())
}

/// The greatest monomial that divides both.
pub fn common_factor(alloc: Global, mono: &Mono, other: &Mono) -> Result<Mono, NoMemory>
    ensures { IfOk result (λ common. common ≡ common_factor mono.now other.now) }
{
    let mut pairs = Vec::new(alloc);
    for pair in mono.pairs() {
        let exponent = pair.1.min(other.exponent(pair.0));
        push_power(&mut pairs, pair.0, exponent)?;
    }
    Mono::of_pairs(alloc, pairs.as_slice())
}

/// A monomial without a factor.
pub fn without_factor(alloc: Global, factor: &Mono, mono: &Mono) -> Result<Mono, NoMemory>
    ensures { IfOk result (λ rest. rest ≡ without_factor factor.now mono.now) }
{
    let mut pairs = Vec::new(alloc);
    for pair in mono.pairs() {
        let exponent = pair.1.saturating_sub(factor.exponent(pair.0));
        push_power(&mut pairs, pair.0, exponent)?;
    }
    Mono::of_pairs(alloc, pairs.as_slice())
}
