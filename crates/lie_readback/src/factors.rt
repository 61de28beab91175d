// The factors of terms. They are read leniently, since what is read is printed again and compared.
ghost use Rattle.std.specs.Prelude.{◌≡◌, ◌≤◌, ◌+◌, [], map, length, IfOk};
ghost use Rattle.std.specs.List.{count_by};
ghost use Rattle.lie_math.specs.Counts.{trimmed};
ghost use Rattle.lie_print.specs.PrintedTerms.{last_of};
ghost use Rattle.lie_scan.specs.Names.{place_of};
ghost use Rattle.lie_readback.specs.Readings.{Reads, read_each};
ghost use Rattle.lie_readback.specs.Factors.{read_small, read_exponent, read_power, read_product, read_monomial, count_in, counts_in};
ghost use Rattle.lie_readback.specs.Factors.{read_derivative, read_base_vector, read_last};

use crate::unread::Unread;
use lie_print::printed_term::LastFactor;
use lie_ring::Mono;
use lie_scan::coordinate::place_of_word;
use lie_scan::number::value_of;
use lie_scan::runs::{Class, split_run};
use std::alloc::Global;

// The number that digits spell, where 32 bits hold it.
fn read_small(digits: &[u8]) -> Result<u32, Unread>
    ensures { Reads (λ n. n) result (read_small digits.now) }
{
    match value_of(digits) {
        Some(number) => {
            if number < 1 << 32 {
                Ok(number as u32)
            } else {
                Err(Unread::Other)
            }
        }
        None => Err(Unread::Other),
    }
}

// The exponent behind the name of a variable, which is 1 where none stands there.
fn read_exponent(behind: &[u8]) -> Result<u32, Unread>
    ensures { Reads (λ n. n) result (read_exponent behind.now) }
{
    match behind {
        [] => Ok(1),
        [b'^', digits @ ..] => read_small(digits),
        _ => Err(Unread::Other),
    }
}

// The place of a name.
fn read_place(names: &[u8], letter: u8) -> Result<u32, Unread>
    requires { length names.now ≤ 8 }
    ensures { Reads (λ n. n) result (place_of names.now letter) }
{
    match place_of_word(names, &[letter]) {
        Some(place) => Ok(u32::from(place)),
        None => Err(Unread::Other),
    }
}

// The power that a factor is: the place of its variable, and the exponent.
fn read_power(names: &[u8], factor: &[u8]) -> Result<(u32, u32), Unread>
    requires { length names.now ≤ 8 }
    ensures { Reads (λ p. p) result (read_power names.now factor.now) }
{
    match factor {
        [letter, behind @ ..] => {
            let place = read_place(names, *letter)?;
            let exponent = read_exponent(behind)?;
            Ok((place, exponent))
        }
        [] => Err(Unread::Other),
    }
}

// The powers that factors are.
fn read_powers(alloc: Global, names: &[u8], factors: &[&[u8]]) -> Result<Vec<(u32, u32)>, Unread>
    requires { length names.now ≤ 8 }
    ensures { Reads (λ ps. ps.items) result (read_each (read_power names.now) [] (map (λ f. f.now) factors.now)) }
{
    let mut powers = Vec::new(alloc);
    let mut i = 0;
    while i < factors.len() {
        let power = read_power(names, factors[i])?;
        powers.push(power)?;
        i += 1;
    }
    Ok(powers)
}

// The monomial with these powers.
fn monomial_of(alloc: Global, powers: &[(u32, u32)]) -> Result<Mono, Unread>
    ensures { Reads (λ m. m) result (read_monomial powers.now) }
{
    match Mono::new(alloc, powers)? {
        Some(monomial) => Ok(monomial),
        None => Err(Unread::Other),
    }
}

/// The monomial that is the product of factors.
#[tactic(auto, unfolding(crate::specs::Factors::read_product))]
pub fn read_product(alloc: Global, names: &[u8], factors: &[&[u8]]) -> Result<Mono, Unread>
    requires { length names.now ≤ 8 }
    ensures { Reads (λ m. m) result (read_product names.now (map (λ f. f.now) factors.now)) }
{
    let powers = read_powers(alloc, names, factors)?;
    monomial_of(alloc, powers.as_slice())
}

// How often a letter stands in a text, up to the greatest count that is kept.
fn count_in(text: &[u8], letter: u8) -> u8
    ensures { result ≡ count_in text.now letter }
{
    let mut count: u8 = 0;
    for byte in text {
        if *byte == letter {
            count = count.saturating_add(1);
        }
    }
    count
}

// How often each name stands in a text.
fn counts_in(names: &[u8], text: &[u8]) -> [u8; 8]
    requires { length names.now ≤ 8 }
    ensures { trimmed result ≡ trimmed (counts_in names.now text.now) }
{
    let mut counts = [0; 8];
    for (i, name) in names.iter().enumerate() {
        counts[i] = count_in(text, *name);
    }
    counts
}

// The base vector whose letter stands in front of a text.
fn read_base_vector(names: &[u8], text: &[u8]) -> Result<LastFactor, Unread>
    requires { length names.now ≤ 8 }
    ensures { Reads last_of result (read_base_vector names.now text.now) }
{
    match text {
        [_, letter] => {
            let place = read_place(names, *letter)?;
            Ok(LastFactor::BaseVector(place as usize))
        }
        _ => Err(Unread::Other),
    }
}

/// The last factor of a term: a derivative of an unknown, or a base vector.
pub fn read_last(names: &[u8], factor: &[u8]) -> Result<LastFactor, Unread>
    requires { length names.now ≤ 8 }
    ensures { Reads last_of result (read_last names.now factor.now) }
{
    match factor {
        [b'f', behind @ ..] => {
            let (digits, letters) = split_run(Class::Digit, behind);
            let unknown = read_small(digits)?;
            Ok(LastFactor::Derivative(unknown as usize, counts_in(names, letters)))
        }
        [b'd', behind @ ..] => read_base_vector(names, behind),
        _ => Err(Unread::Other),
    }
}
