//! Partial derivatives and derivations.

ghost use Rattle.std.specs.Prelude.{◌≡◌, ℕ, suc, cond, eqb, pos, ◌*ℤ◌};
ghost use Rattle.lie_math.specs.Monomial.{Monomial, ◌·◌, exponent, single};
ghost use Rattle.lie_math.specs.Polynomial.{WholePolynomial, coefficient, constant, variable, 0ᴾ, ◌+ᴾ◌, ◌*ᴾ◌};
ghost use Rattle.lie_math.specs.PartialDerivative.{partial};
ghost use Rattle.lie_math.specs.Derivation.{IsDerivation, derivation, bracket};
ghost use Rattle.lie_math.specs.Laws.{DerivationIsChainRule};

/// The coefficients of a partial derivative: that at `n` is the coefficient at `v·n`, times the exponent of `v` in `v·n`.
pub fn partial_coefficients()
    ensures { (v : ℕ) (p : WholePolynomial) (n : Monomial)
        → coefficient (partial v p) n ≡ coefficient p (single v · n) *ℤ pos (suc (exponent n v)) }
{}

/// The derivative of a product (Leibniz).
pub fn product_rule()
    ensures { (v : ℕ) (p q : WholePolynomial) → partial v (p *ᴾ q) ≡ partial v p *ᴾ q +ᴾ p *ᴾ partial v q }
{}

/// Partial derivatives commute.
pub fn partials_commute()
    ensures { (v w : ℕ) (p : WholePolynomial) → partial v (partial w p) ≡ partial w (partial v p) }
{}

/// A partial derivative is a derivation, 1 at its own variable and 0 at the others.
pub fn partial_is_derivation()
    ensures { (v : ℕ) → IsDerivation (partial v) × ((w : ℕ) → partial v (variable w) ≡ cond (eqb v w) (constant (pos 1)) 0ᴾ) }
{}

/// For any values at the variables there is a derivation that has them.
pub fn derivation_has_values()
    ensures { (d : ℕ → WholePolynomial) → IsDerivation (derivation d) × ((w : ℕ) → derivation d (variable w) ≡ d w) }
{}

/// A derivation is told by its values at the variables: it is their sum, each times the partial derivative (the chain rule).
pub fn derivation_is_chain_rule()
    ensures { DerivationIsChainRule }
{}

/// The commutator of two derivations is a derivation.
pub fn bracket_is_derivation()
    ensures { (D E : WholePolynomial → WholePolynomial) → IsDerivation D → IsDerivation E → IsDerivation (bracket D E) }
{}
