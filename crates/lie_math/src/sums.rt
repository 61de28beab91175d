//! Monomials and polynomials as finite sums: the print order, and what tells a polynomial.

ghost use Rattle.std.specs.Prelude.{◌≡◌, ℕ, ◌+◌, ℤ, ◌+ℤ◌, ◌*ℤ◌};
ghost use Rattle.lie_math.specs.Monomial.{Monomial, ◌·◌, exponent, degree};
ghost use Rattle.lie_math.specs.Polynomial.{WholePolynomial, coefficient, term, over_terms, 0ᴾ, ◌+ᴾ◌, ◌*ᴾ◌};
ghost use Rattle.lie_math.specs.Powers.{total_degree};
ghost use Rattle.lie_math.specs.Laws.{PrintOrderIsTotal, PrintOrderIsByExponents, IsGreatest};

/// The order in which terms are printed, the greater degree first and then the lower variable with the greater exponent,
/// is total, and two monomials tie only where they are equal.
pub fn print_order_is_total()
    ensures { PrintOrderIsTotal }
{}

/// The one of two monomials is printed first that has the greater degree or, where the degrees are equal, the greater exponent
/// at the first variable where they differ.
pub fn print_order_is_by_exponents()
    ensures { PrintOrderIsByExponents }
{}

/// The exponents of a product of monomials are the sums of theirs.
pub fn exponents_add()
    ensures { (m n : Monomial) (v : ℕ) → exponent (m · n) v ≡ exponent m v + exponent n v }
{}

/// A polynomial is told by its coefficients.
pub fn coefficients_tell()
    ensures { (p q : WholePolynomial) → ((m : Monomial) → coefficient p m ≡ coefficient q m) → p ≡ q }
{}

/// The coefficients of a sum are the sums of the coefficients.
pub fn coefficients_add()
    ensures { (p q : WholePolynomial) (m : Monomial) → coefficient (p +ᴾ q) m ≡ coefficient p m +ℤ coefficient q m }
{}

/// Two terms are multiplied by their monomials and by their numbers.
pub fn terms_multiply()
    ensures { (m n : Monomial) (a b : ℤ) → term m a *ᴾ term n b ≡ term (m · n) (a *ℤ b) }
{}

/// An additive map is told by what it makes of the terms.
pub fn terms_tell_additive_map()
    ensures { (h : WholePolynomial → WholePolynomial) → h 0ᴾ ≡ 0ᴾ → ((p q : WholePolynomial) → h (p +ᴾ q) ≡ h p +ᴾ h q)
        → (p : WholePolynomial) → h p ≡ over_terms (λ m a. h (term m a)) p }
{}

/// The degree of a polynomial is the greatest degree of its terms.
pub fn total_degree_is_greatest()
    ensures { (p : WholePolynomial) → IsGreatest degree p (total_degree p) }
{}
