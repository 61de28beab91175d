// The arithmetic of single entries.
ghost use Rattle.std.specs.Prelude.{◌≡◌, ◌↔◌, ◌<◌, ◌≤◌, ◌+◌, ◌*◌, pos, ◌+ℤ◌, ◌*ℤ◌, neg_ℤ, unsigned_abs, int_div, IsTrue, MatchOption};
ghost use Rattle.std.specs.Int.{◌∣◌};
ghost use Rattle.lie_math.specs.CommonDivisors.{common_divisor};
ghost use Rattle.lie_math.specs.Limits.{number_limit, FitsNumber};
ghost use Rattle.lie_spans.specs.Elimination.{over_common};
ghost use Rattle.lie_spans.specs.Solutions.{common_multiple};

use lie_ring::{Ring, Whole, gcd};

/// Whether the entry is 0.
pub fn is_zero(entry: &Whole) -> bool
    ensures { IsTrue result ↔ (entry.now ≡ pos 0) }
{
    entry.get() == 0
}

/// The whole number of an unsigned one.
pub fn whole_of(size: u128) -> Whole
    requires { size < number_limit }
    ensures { result ≡ pos size }
{
    match Whole::new(size as i128) {
        Some(whole) => whole,
        None => unreachable!(),
    }
}

/// The quotient by a number that divides the entry.
pub fn exact_entry(entry: Whole, by: u128) -> Whole
    requires positive { 0 < by }
    requires small { by < number_limit }
    requires divides { by ∣ unsigned_abs entry }
    ensures { result ≡ int_div entry (pos by) }
{
    entry.exact_quotient(whole_of(by))
}

/// The greatest common divisor; most often one of the numbers is 0 or the second is 1.
pub fn common_divisor_of(a: u128, b: u128) -> u128
    ensures { result ≡ common_divisor a b }
{
    if a == 0 {
        return b;
    }
    if b == 1 {
        return 1;
    }
    gcd(a, b)
}

/// `a` over the greatest common divisor of `a` and `b`.
pub fn over_common(a: Whole, b: Whole) -> Whole
    requires { ¬ (a ≡ pos 0) }
    ensures { result ≡ over_common a b }
{
    exact_entry(a, common_divisor_of(a.size(), b.size()))
}

/// `a * x - b * y`; None exactly where the sum of the absolute values of the products is past 2^127 - 1.
pub fn difference_entry(a: Whole, x: Whole, b: Whole, y: Whole) -> Option<Whole>
    ensures { MatchOption result
        (number_limit ≤ unsigned_abs a * unsigned_abs x + unsigned_abs b * unsigned_abs y)
        (λ made. (made ≡ a *ℤ x +ℤ neg_ℤ (b *ℤ y)) × (unsigned_abs a * unsigned_abs x + unsigned_abs b * unsigned_abs y < number_limit)) }
{
    let left = a.mul(&x)?;
    let right = b.mul(&y)?;
    if left.size() + right.size() > i128::MAX as u128 {
        return None;
    }
    match left.add(&right.neg()) {
        Some(difference) => Some(difference),
        None => unreachable!(),
    }
}

/// The least common multiple; None exactly where it is past 2^127 - 1.
pub fn common_multiple_of(a: u128, b: u128) -> Option<u128>
    requires { 0 < a }
    ensures { MatchOption result (number_limit ≤ common_multiple a b) (λ made. (made ≡ common_multiple a b) × (made < number_limit)) }
{
    let part = a / common_divisor_of(a, b);
    match part.checked_mul(b) {
        Some(multiple) if multiple <= i128::MAX as u128 => Some(multiple),
        _ => None,
    }
}

/// Minus the entry times the multiple over the last entry; None exactly where it is past 2^127 - 1.
pub fn answer_of(multiple: u128, entry: Whole, last: Whole) -> Option<Whole>
    requires small { multiple < number_limit }
    requires counts { ¬ (last ≡ pos 0) }
    requires divides { ¬ (entry ≡ pos 0) → unsigned_abs last ∣ multiple }
    ensures { MatchOption result
        (number_limit ≤ unsigned_abs (neg_ℤ (entry *ℤ int_div (pos multiple) last)))
        (λ made. (made ≡ neg_ℤ (entry *ℤ int_div (pos multiple) last)) × FitsNumber (neg_ℤ (entry *ℤ int_div (pos multiple) last))) }
{
    if is_zero(&entry) {
        return Some(Whole::zero());
    }
    match entry.mul(&whole_of(multiple).exact_quotient(last)) {
        Some(product) => Some(product.neg()),
        None => None,
    }
}
