// The norms and the degrees of polynomials, as far as the limits.
ghost use Rattle.std.specs.Prelude.{◌≡◌, suc, min, unsigned_abs};
ghost use Rattle.lie_math.specs.Limits.{greatest_exponent, greatest_term_count};
ghost use Rattle.lie_math.specs.Monomial.{degree};
ghost use Rattle.lie_math.specs.Natural.{maxima, naturals};
ghost use Rattle.lie_math.specs.SortedSum.{sum_of_entries};

use lie_ring::{Mono, Ring, Whole};

/// The greatest number of terms in a polynomial.
pub const MAX_TERMS: u128 = 1_000_000;

/// The greatest exponent of a variable.
pub const MAX_EXPONENT: u128 = 65_535;

/// The norm of the polynomial of these terms, the sum of the absolute values of their coefficients, or 1,000,001 where it is greater.
pub fn norm_of(terms: &[(Mono, Whole)]) -> u128
    ensures { result ≡ min (sum_of_entries naturals (λ m a. unsigned_abs a) terms.now) (suc greatest_term_count) }
{
    let mut norm: u128 = 0;
    for term in terms {
        norm = (norm + term.1.size()).min(MAX_TERMS + 1);
    }
    norm
}

/// The degree of a product of powers, the sum of the exponents, or 65,536 where it is greater.
fn degree_in(pairs: &[(u32, u32)]) -> u128
    ensures { result ≡ min (sum_of_entries naturals (λ v e. e) pairs.now) (suc greatest_exponent) }
{
    let mut degree: u128 = 0;
    for pair in pairs {
        degree = (degree + u128::from(pair.1)).min(MAX_EXPONENT + 1);
    }
    degree
}

/// The degree of the polynomial of these terms, or 65,536 where it is greater.
pub fn degree_of(terms: &[(Mono, Whole)]) -> u128
    ensures { result ≡ min (sum_of_entries maxima (λ m a. degree m) terms.now) (suc greatest_exponent) }
{
    let mut greatest: u128 = 0;
    for term in terms {
        greatest = greatest.max(degree_in(term.0.pairs()));
    }
    greatest
}
