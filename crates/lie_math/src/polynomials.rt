//! The ring of whole polynomials: its laws, and the homomorphisms out of it.

ghost use Rattle.std.specs.Prelude.{◌≡◌, ℤ, pos};
ghost use Rattle.lie_math.specs.Polynomial.{WholePolynomial, constant, 0ᴾ, ◌*ᴾ◌};
ghost use Rattle.lie_math.specs.Laws.{PolynomialsAreRing, SubstitutionIsHomomorphism, HomomorphismIsSubstitution};

/// Whole polynomials are a commutative ring.
pub fn polynomials_are_ring()
    ensures { PolynomialsAreRing }
{}

/// A product is 0 only where a factor is.
pub fn no_zero_divisors()
    ensures { (p q : WholePolynomial) → ¬ (p ≡ 0ᴾ) → p *ᴾ q ≡ 0ᴾ → q ≡ 0ᴾ }
{}

/// A factor that is not 0 can be taken off both sides.
pub fn factors_cancel()
    ensures { (a p q : WholePolynomial) → ¬ (a ≡ 0ᴾ) → a *ᴾ p ≡ a *ᴾ q → p ≡ q }
{}

/// A number that is not 0 can be taken off both sides.
pub fn numbers_cancel()
    ensures { (n : ℤ) → ¬ (n ≡ pos 0) → (p q : WholePolynomial) → constant n *ᴾ p ≡ constant n *ᴾ q → p ≡ q }
{}

/// Putting polynomials in for the variables keeps numbers, sums and products, and takes each variable to what is put in for it.
pub fn substitution_is_homomorphism()
    ensures { SubstitutionIsHomomorphism }
{}

/// What keeps numbers, sums and products puts in for the variables what it makes of them: numbers and variables generate all polynomials.
pub fn homomorphism_is_substitution()
    ensures { HomomorphismIsSubstitution }
{}
