//! Linear forms in the derivatives of unknown functions: the order of derivatives, and what a form says of functions put in for the
//! unknowns.

ghost use Rattle.std.specs.Prelude.{◌≡◌, ℕ, List};
ghost use Rattle.lie_math.specs.Polynomial.{WholePolynomial, ◌+ᴾ◌, ◌*ᴾ◌};
ghost use Rattle.lie_math.specs.PartialDerivative.{partial};
ghost use Rattle.lie_math.specs.Counts.{raise, partials};
ghost use Rattle.lie_math.specs.LinearForm.{LinearForm, ◌+ᶠ◌, times_form, unknown_form, derive, apply};
ghost use Rattle.lie_math.specs.Laws.{DerivativeOrderIsTotal, TrimmedCountsKeepOrder};

/// The order in which derivatives of unknowns are printed is total, and two derivatives tie only where they are equal.
pub fn derivative_order_is_total()
    ensures { DerivativeOrderIsTotal }
{}

/// Derivatives with equally long lists of counts stand in the order in which they stand without the zeros at the end of these.
pub fn trimmed_counts_keep_order()
    ensures { TrimmedCountsKeepOrder }
{}

/// One more in the counts is one more derivative.
pub fn raised_counts_derive()
    ensures { (i : ℕ) (J : List ℕ) (p : WholePolynomial) → partials (raise i J) p ≡ partial i (partials J p) }
{}

/// The form of an unknown says the function that is put in for it.
pub fn unknown_says_function()
    ensures { (F : ℕ → WholePolynomial) (n : ℕ) → apply F (unknown_form n) ≡ F n }
{}

/// A sum of forms says the sum.
pub fn sum_says_sum()
    ensures { (F : ℕ → WholePolynomial) (E G : LinearForm) → apply F (E +ᶠ G) ≡ apply F E +ᴾ apply F G }
{}

/// A form times a polynomial says the product.
pub fn multiple_says_multiple()
    ensures { (F : ℕ → WholePolynomial) (p : WholePolynomial) (E : LinearForm) → apply F (times_form p E) ≡ p *ᴾ apply F E }
{}

/// The derivative of a form says the derivative.
pub fn derivative_says_derivative()
    ensures { (F : ℕ → WholePolynomial) (i : ℕ) (E : LinearForm) → apply F (derive i E) ≡ partial i (apply F E) }
{}
