// Linear forms in the derivatives of unknown functions.
ghost use Rattle.std.specs.Prelude.{◌≡◌, ◌++◌, ◌∷◌, [], IfOk, OnOk, MatchOption, ℤ, List};
ghost use Rattle.lie_math.specs.LinearForm.{no_form, forms};
ghost use Rattle.lie_math.specs.Monomial.{Monomial};
ghost use Rattle.lie_systems.specs.Leads.{IsLead};
ghost use Rattle.lie_systems.specs.Triples.{triples as triples_in_form, triples_in, triples_with};
ghost use Rattle.lie_math.specs.FiniteSum as finite;
ghost use Rattle.lie_lin.specs.Forms.{coefficients_of, triples_of, AreCoefficients};
ghost use Rattle.lie_jet.specs.Derivatives.{derivative_of};

use lie_bytes::NoMemory;
use lie_jet::Der;
use lie_poly::Flat;
use lie_ring::{Mono, Polynomial, Whole};
use std::alloc::Global;
use std::marker::Model;

/// A linear form in the derivatives of unknown functions, as the left side of an equation: derivatives with their coefficients,
/// the greatest derivative first, each once, and no coefficient 0.
#[derive(Drop)]
pub struct LinEq {
    terms: Vec<(Der, Flat<Whole>)>,
}

impl Model for LinEq {
    ghost use Rattle.lie_math.specs.FiniteSum as finite;
    ghost use Rattle.lie_math.specs.LinearForm.{LinearForm, forms};
    ghost use Rattle.lie_math.specs.Codes.{form_code};
    ghost use Rattle.lie_lin.specs.Forms.{coefficients_of, AreCoefficients};

    ghost Value = { LinearForm };

    ghost coded = { form_code };

    ghost view = { λ a. finite.of forms (coefficients_of a.terms.items) };

    ghost invariant = { λ a. AreCoefficients a.terms.items };
}

impl LinEq {
    /// The form with these coefficients, which are moved: it takes no memory.
    pub fn of_terms(terms: Vec<(Der, Flat<Whole>)>) -> LinEq
        requires { AreCoefficients terms.items }
        ensures { result ≡ finite.of forms (coefficients_of terms.items) }
    {
        LinEq { terms }
    }

    /// The derivatives with their coefficients.
    pub fn terms(&self) -> &[(Der, Flat<Whole>)]
        ensures list { coefficients_of result.now ≡ self.now.list }
        ensures coefficients { AreCoefficients result.now }
    {
        self.terms.as_slice()
    }
}

/// The greatest derivative that occurs; None exactly where the form is empty.
pub fn lead(eq: &LinEq) -> Option<Der>
    ensures { MatchOption result (eq.now ≡ no_form) (λ der. IsLead (derivative_of der) eq.now) }
{
    if eq.terms.len() == 0 {
        return None;
    }
    Some(eq.terms[0].0)
}

/// The triples of a derivative, a monomial and a number, the greatest derivative first, and for each its monomials in print order.
pub fn triples(alloc: Global, eq: &LinEq) -> Result<Vec<(Der, Mono, Whole)>, NoMemory>
    ensures { IfOk result (λ list. triples_of list.items ≡ triples_in_form eq.now) }
{
    copy_triples(alloc, eq.terms.as_slice())
}

/// The triples of derivatives with their coefficients.
fn copy_triples(
    alloc: Global,
    terms: &[(Der, Flat<Whole>)],
) -> Result<Vec<(Der, Mono, Whole)>, NoMemory>
    ensures { IfOk result (λ list. triples_of list.items ≡ triples_in (coefficients_of terms.now)) }
{
    let mut out = Vec::new(alloc);
    for term in terms {
        push_triples(&mut out, alloc, term)?;
    }
    Ok(out)
}

/// Puts the triples of one derivative behind others.
pub fn push_triples(
    out: &mut Vec<(Der, Mono, Whole)>,
    alloc: Global,
    term: &(Der, Flat<Whole>),
) -> Result<(), NoMemory>
    ensures { OnOk result (triples_of out.new.items ≡ triples_of out.old.items ++ triples_with (derivative_of term.now.0)
        (term.now.1).list) }
{
    let list = term.1.terms(alloc)?;
    for (mono, number) in list {
        out.push((term.0, mono, number))?;
    }
    Ok(())
}
