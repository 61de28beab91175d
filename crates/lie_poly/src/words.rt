// Monomials as words.
ghost use Rattle.std.specs.Prelude.{◌≡◌, ℕ, ◌<◌, IsTrue, IfSome, List};
ghost use Rattle.std.specs.List.{AllByRecursion as Every};
ghost use Rattle.lie_math.specs.Monomial.{degree, exponent};
ghost use Rattle.lie_poly.specs.Words.{written_behind, IsOneOf, RiseFrom, IsWord};

use lie_ring::Mono;
use std::alloc::Global;

/// The word of a monomial, if it has no other variables, its degree is at most the greatest one, and the word has room.
pub fn word_of(vars: &[u32], base: u128, most: u128, mono: &Mono) -> Option<u128>
    ensures { IfSome result (λ word. IsWord base vars.now most mono.now word) }
{
    let degree = degree_of(mono)?;
    if degree > most || !are_of(vars, mono.pairs()) {
        return None;
    }
    write_behind(vars, base, degree, mono)
}

/// The monomial with a word.
pub fn mono_of(alloc: Global, vars: &[u32], base: u128, most: u128, word: u128) -> Option<Mono>
    ensures { IfSome result (λ mono. IsWord base vars.now most mono word) }
{
    let mono = read_mono(alloc, vars, base, word)?;
    let own = word_of(vars, base, most, &mono)?;
    if own == word { Some(mono) } else { None }
}

/// Whether the variables rise.
pub fn are_rising(vars: &[u32]) -> bool
    ensures { IsTrue result → RiseFrom 0 vars.now }
{
    let mut least: u64 = 0;
    for var in vars {
        if u64::from(*var) < least {
            return false;
        }
        least = u64::from(*var) + 1;
    }
    true
}

/// The degree, if there is room for it.
pub fn degree_of(mono: &Mono) -> Option<u128>
    ensures { IfSome result (λ d. d ≡ degree mono.now) }
{
    let pairs = mono.pairs();
    let mut total: u128 = 0;
    for (_, exponent) in pairs {
        total = total.checked_add(u128::from(*exponent))?;
    }
    Some(total)
}

/// Whether each pair is of one of the variables.
fn are_of(vars: &[u32], pairs: &[(u32, u32)]) -> bool
    ensures { IsTrue result → Every (λ p. IsOneOf p.0 vars.now) pairs.now }
{
    for (var, _) in pairs {
        if !is_one_of(vars, *var) {
            return false;
        }
    }
    true
}

/// Whether a variable is one of these.
fn is_one_of(vars: &[u32], var: u32) -> bool
    ensures { IsTrue result → IsOneOf var vars.now }
{
    for other in vars {
        if var == *other {
            return true;
        }
    }
    false
}

/// The exponents of the variables, written behind a number.
fn write_behind(vars: &[u32], base: u128, number: u128, mono: &Mono) -> Option<u128>
    ensures { IfSome result (λ word. word ≡ written_behind base number vars.now mono.now) }
{
    let mut word = number;
    for var in vars {
        word = word
            .checked_mul(base)?
            .checked_add(u128::from(mono.exponent(*var)))?;
    }
    Some(word)
}

/// The monomial whose exponents are the digits of a word. What it is the word tells, which is made anew.
fn read_mono(alloc: Global, vars: &[u32], base: u128, word: u128) -> Option<Mono> {
    let mut pairs = Vec::new(alloc);
    let mut rest = word;
    for var in vars.iter().rev() {
        let exponent = rest.checked_rem(base)?;
        rest = rest.checked_div(base)?;
        if exponent > 0 {
            pairs.push((*var, u32::try_from(exponent).ok()?)).ok()?;
        }
    }
    pairs.reverse();
    Mono::new(alloc, pairs.as_slice()).ok()?
}
