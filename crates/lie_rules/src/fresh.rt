// Fresh unknowns, one for each of some powers of variables, and the sum of the powers, each times its unknown.
ghost use Rattle.std.specs.Prelude.{◌≡◌, ◌+◌, ◌<◌, ◌^◌, ◌++◌, [], map, length, filter, not, eqb, pos, IfOk, IfErr, OnOk};
ghost use Rattle.std.specs.List.{AllByRecursion as Every, Contains, range_with_len};
ghost use Rattle.lie_math.specs.FiniteSum as finite;
ghost use Rattle.lie_math.specs.LinearForm.{forms, ◌+ᶠ◌, form_term};
ghost use Rattle.lie_math.specs.Monomial.{power_of};
ghost use Rattle.lie_math.specs.Polynomial.{0ᴾ, term};
ghost use Rattle.lie_systems.specs.Works.{IsWorkWithin};
ghost use Rattle.lie_lin.specs.Systems.{has_bit, unknown_of};
ghost use Rattle.lie_steps.specs.Absent.{powers_from, fresh_sum, fresh_unknowns};
ghost use Rattle.lie_steps.specs.Replacement.{fresh_made};
ghost use Rattle.lie_normal.specs.WorkCauses.{IsWorkCause};

use lie_bytes::NoMemory;
use lie_form::SymForm;
use lie_jet::{Der, JetPoly};
use lie_lin::{LinEq, Unknown};
use lie_ring::{Mono, PastKind, PolyFail, Ring, Whole, term_polynomial};
use std::alloc::Global;

/// The greatest number of an unknown.
const MAX_UNKNOWN: u32 = 65_535;

/// A variable and an exponent.
pub type Power = (u8, u8);

/// Puts the powers of a variable with the exponents below `count` behind others, the lowest first.
pub fn push_powers(powers: &mut Vec<Power>, var: u8, count: u8) -> Result<(), NoMemory>
    ensures { OnOk result (powers.new.items ≡ powers.old.items ++ powers_from var 0 count) }
{
    for exponent in 0..count {
        powers.push((var, exponent))?;
    }
    Ok(())
}

/// An unknown for each power, with the numbers from `next` on: each depends on the variables of `unknown` without that of its power.
///
/// `Past` comes exactly where a number would pass the greatest one of an unknown.
pub fn fresh_unknowns(
    alloc: Global,
    next: u32,
    unknown: &Unknown,
    powers: &[Power],
) -> Result<Vec<Unknown>, PolyFail>
    requires { Every (λ c. c.0 < 8) powers.now }
    ensures unknowns { IfOk result (λ made. map unknown_of made.items ≡ fresh_unknowns next (unknown_of unknown.now) powers.now) }
    ensures numbers { OnOk result (next + length powers.now < 2 ^ 32) }
    ensures fits { OnOk result (IsWorkWithin (Contains (fresh_made (fresh_unknowns next (unknown_of unknown.now) powers.now)))) }
    ensures past { IfErr result (λ fail. IsWorkCause fail
        (Contains (fresh_made (fresh_unknowns next (unknown_of unknown.now) powers.now)))) }
{
    let mut fresh = Vec::new(alloc);
    let mut number = next;
    for power in powers {
        if number > MAX_UNKNOWN {
            return Err(PolyFail::Past(PastKind::Unknowns));
        }
        let vars = without_bit(unknown.vars, power.0);
        fresh.push(Unknown { number, vars })?;
        number += 1;
    }
    Ok(fresh)
}

/// The bits without one.
fn without_bit(bits: u8, i: u8) -> u8
    requires { i < 8 }
    ensures { filter (has_bit result) (range_with_len 0 8) ≡ filter (λ v. not (eqb v i)) (filter (has_bit bits) (range_with_len 0 8)) }
{
    bits & !(1 << i)
}

/// The sum of powers, each times an unknown, whose numbers go on from `next`.
pub fn fresh_sum(alloc: Global, next: u32, powers: &[Power]) -> Result<LinEq, NoMemory>
    requires { next + length powers.now < 2 ^ 32 }
    ensures { IfOk result (λ sum. sum ≡ fresh_sum next powers.now) }
{
    let mut sum = SymForm::zero(alloc);
    let mut i = powers.len();
    while i > 0 {
        i -= 1;
        put_power(&mut sum, alloc, next + i as u32, powers[i])?;
    }
    Ok(LinEq::of_terms(sum.into_terms()))
}

/// Adds a power times an unknown that does not occur.
fn put_power(sum: &mut SymForm, alloc: Global, number: u32, power: Power) -> Result<(), NoMemory>
    requires { finite.value forms sum.old (record { unknown = number; counts = [] }) ≡ 0ᴾ }
    ensures { OnOk result (sum.new ≡ sum.old
        +ᶠ form_term (record { unknown = number; counts = [] }) (term (power_of power.0 power.1) (pos 1))) }
{
    let mono = Mono::power(alloc, u32::from(power.0), u32::from(power.1));
    let poly: JetPoly = term_polynomial(alloc, mono, Whole::one())?;
    poly.is_within_limits();
    let der = Der {
        unknown: number,
        counts: [0; 8],
    };
    match sum.put(alloc, der, poly) {
        Ok(()) => Ok(()),
        Err(PolyFail::NoMemory) => Err(NoMemory),
        Err(PolyFail::Past(_)) => unreachable!(),
    }
}
