// The words of texts: numbers, monomials and derivatives of unknowns.
use lie_bytes::NoMemory;
use lie_jet::Der;
use lie_ring::{Mono, Whole};
use std::alloc::Global;

/// The number whose digits stand in a text, whatever stands between them.
pub fn number_of(text: &[u8]) -> i128 {
    let mut number: i128 = 0;
    for byte in text {
        if let b'0'..=b'9' = byte {
            number = number
                .saturating_mul(10)
                .saturating_add(i128::from(byte.saturating_sub(b'0')));
        }
    }
    number
}

/// The number of an unknown whose digits stand in a text.
pub fn unknown_of(text: &[u8]) -> u32 {
    u32::try_from(number_of(text)).unwrap_or(0)
}

/// How often each name stands in a text.
pub fn counts(names: &[u8], text: &[u8]) -> [u8; 8] {
    let mut counts = [0u8; 8];
    for letter in text {
        if let Some(place) = names.iter().position(|name| name == letter) {
            if place < 8 {
                counts[place] = counts[place].saturating_add(1);
            }
        }
    }
    counts
}

/// The monomial with these exponents.
fn monomial(alloc: Global, exponents: [u8; 8]) -> Result<Mono, NoMemory> {
    let mut pairs = Vec::new(alloc);
    for variable in 0..8u32 {
        let exponent = exponents[variable as usize];
        if exponent != 0 {
            pairs.push((variable, u32::from(exponent)))?;
        }
    }
    Mono::new(alloc, pairs.as_slice())?.ok_or(NoMemory)
}

/// The triple of a word such as `3*xx*u*f1_u`.
pub fn triple(alloc: Global, names: &[u8], word: &[u8]) -> Result<(Der, Mono, Whole), NoMemory> {
    let mut number: i128 = 1;
    let mut exponents = [0u8; 8];
    let mut der = Der {
        unknown: 0,
        counts: [0; 8],
    };
    let mut factors = word;
    if let [b'-', rest @ ..] = word {
        number = -1;
        factors = rest;
    }
    for factor in factors.split(|b| *b == b'*') {
        match factor {
            [b'f', ..] => {
                der = Der {
                    unknown: unknown_of(factor),
                    counts: counts(names, factor),
                }
            }
            [b'0'..=b'9', ..] => number = number.saturating_mul(number_of(factor)),
            _ => {
                let more = counts(names, factor);
                for variable in 0..8 {
                    exponents[variable] = exponents[variable].saturating_add(more[variable]);
                }
            }
        }
    }
    let number = Whole::new(number).ok_or(NoMemory)?;
    Ok((der, monomial(alloc, exponents)?, number))
}
