// What divides all triples of a form.
ghost use Rattle.std.specs.Prelude.{◌≡◌, IfOk, ◌*ℤ◌, pos, unsigned_abs};
ghost use Rattle.lie_math.specs.CommonDivisors.{common_divisor};
ghost use Rattle.lie_systems.specs.Normalised.{content, common_monomial, first_sign};
ghost use Rattle.lie_lin.specs.Forms.{triples_of};

use crate::factors::common_factor;
use lie_bytes::NoMemory;
use lie_jet::Der;
use lie_ring::{Mono, Ring, Whole, gcd};
use std::alloc::Global;

/// The greatest common divisor of two numbers.
fn common_divisor(number: Whole, other: Whole) -> Whole
    ensures { result ≡ pos (common_divisor (unsigned_abs number) (unsigned_abs other)) }
{
    match Whole::new(gcd(number.size(), other.size()) as i128) {
        Some(divisor) => divisor,
        None => unreachable!(),
    }
}

/// The greatest common divisor of the numbers.
pub fn content_of(list: &[(Der, Mono, Whole)]) -> Whole
    ensures { result ≡ pos (content (triples_of list.now)) }
{
    let mut divisor = Whole::zero();
    let mut i = list.len();
    while i > 0 {
        i -= 1;
        divisor = common_divisor(list[i].2, divisor);
    }
    divisor
}

/// The greatest common divisor of the numbers, with the sign of the first.
pub fn signed_content(list: &[(Der, Mono, Whole)]) -> Whole
    ensures { result ≡ first_sign (triples_of list.now) *ℤ pos (content (triples_of list.now)) }
{
    let divisor = content_of(list);
    if list.len() > 0 && list[0].2.get() < 0 {
        divisor.neg()
    } else {
        divisor
    }
}

/// The greatest monomial that divides all monomials.
pub fn common_monomial(alloc: Global, list: &[(Der, Mono, Whole)]) -> Result<Mono, NoMemory>
    ensures { IfOk result (λ common. common ≡ common_monomial (triples_of list.now)) }
{
    if list.len() == 0 {
        return Ok(Mono::one(alloc));
    }
    let mut i = list.len() - 1;
    let mut common = list[i].1.copy(alloc)?;
    while i > 0 {
        i -= 1;
        common = common_factor(alloc, &list[i].1, &common)?;
    }
    Ok(common)
}
