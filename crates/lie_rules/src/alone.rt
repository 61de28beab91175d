// Equations of one derivative alone.
ghost use Rattle.std.specs.Prelude.{◌≡◌, MatchOption};
ghost use Rattle.lie_math.specs.Counts.{Derivative};
ghost use Rattle.lie_systems.specs.Normalised.{IsNormalised, derivative_alone};
ghost use Rattle.lie_jet.specs.Derivatives.{derivative_of};

use lie_jet::Der;
use lie_lin::LinEq;

/// The derivative of which a normalised equation says that it is 0; None exactly where the equation has several.
pub fn sole_derivative(eq: &LinEq) -> Option<Der>
    requires { IsNormalised eq.now }
    ensures { MatchOption result ((d : Derivative) → ¬ (eq.now ≡ derivative_alone d))
        (λ der. eq.now ≡ derivative_alone (derivative_of der)) }
{
    let terms = eq.terms();
    if terms.len() != 1 {
        return None;
    }
    Some(terms[0].0)
}
