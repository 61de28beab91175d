//! Multiplies f by f + 1, where f is the N-th power of 1 + x + y + z + t, and prints how many terms that has.
#![tactic(auto)]

use anyhow::{Result, bail};
use lie_poly::Flat;
use lie_ring::{Mono, PolyFail, Polynomial, Ring, Whole, constant_polynomial};
use std::alloc::Global;
use std::env;

/// 1 + x + y + z + t.
fn linear(alloc: Global) -> Result<Flat<Whole>, PolyFail> {
    let mut terms = Vec::new(alloc);
    terms.push((Mono::one(alloc), Whole::one()))?;
    for variable in 0..4 {
        terms.push((Mono::variable(alloc, variable), Whole::one()))?;
    }
    Flat::of_terms(alloc, terms.as_slice())
}

/// The number of terms of f*(f + 1).
fn product_len(alloc: Global, n: u32) -> Result<usize, PolyFail> {
    let base = linear(alloc)?;
    let one: Flat<Whole> = constant_polynomial(alloc, Whole::one())?;
    let mut power = one.copy(alloc)?;
    for _ in 0..n {
        power = power.mul(alloc, &base)?;
    }
    let more = power.add(alloc, &one)?;
    let product = power.mul(alloc, &more)?;
    Ok(product.len())
}

fn main(rt: HostRuntime) -> Result<()> {
    let Some(word) = env::args(&rt)?.nth(1) else {
        bail!("say which power");
    };
    let n: u32 = word.parse()?;
    match product_len(rt.alloc(), n) {
        Ok(len) => println!(rt; "{len} terms")?,
        Err(fail) => bail!("{fail:?}"),
    }
    Ok(())
}
