// Which forms have an unknown.
ghost use Rattle.std.specs.Prelude.{◌≡◌};
ghost use Rattle.std.specs.List.{list_any};
ghost use Rattle.lie_steps.specs.Equations.{mentions};

use lie_lin::LinEq;

/// Whether a form has the unknown with a number.
pub fn mentions(eq: &LinEq, number: u32) -> bool
    ensures { result ≡ mentions number eq.now }
{
    for term in eq.terms() {
        if term.0.unknown == number {
            return true;
        }
    }
    false
}

/// Whether one of the forms has the unknown with a number.
pub fn any_mentions(forms: &[LinEq], number: u32) -> bool
    ensures { result ≡ list_any (mentions number) forms.now }
{
    for form in forms {
        if mentions(form, number) {
            return true;
        }
    }
    false
}
