// Forms divided by the greatest common divisor of all their numbers.
ghost use Rattle.std.specs.Prelude.{◌≡◌, ◌++◌, pos, unsigned_abs, map, IfOk, OnOk};
ghost use Rattle.std.specs.List.{AllByRecursion as Every, flat_map};
ghost use Rattle.lie_systems.specs.Laws.{DividesNumbers};
ghost use Rattle.lie_systems.specs.Triples.{triples};
ghost use Rattle.lie_lin.specs.Forms.{triples_of};
ghost use Rattle.lie_steps.specs.Replacement.{divided_by, without_divisor};

use lie_bytes::NoMemory;
use lie_jet::Der;
use lie_lin::{LinEq, content_of, divided_coefficients, push_triples};
use lie_ring::{Mono, Ring, Whole};
use std::alloc::Global;

/// Puts the triples of a form behind others.
fn push_form(
    list: &mut Vec<(Der, Mono, Whole)>,
    alloc: Global,
    form: &LinEq,
) -> Result<(), NoMemory>
    ensures { OnOk result (triples_of list.new.items ≡ triples_of list.old.items ++ triples form.now) }
{
    for term in form.terms() {
        push_triples(list, alloc, term)?;
    }
    Ok(())
}

/// The triples of forms, one form after the other.
fn triples_of_all(alloc: Global, forms: &[LinEq]) -> Result<Vec<(Der, Mono, Whole)>, NoMemory>
    ensures { IfOk result (λ list. triples_of list.items ≡ flat_map triples forms.now) }
{
    let mut list = Vec::new(alloc);
    for form in forms {
        push_form(&mut list, alloc, form)?;
    }
    Ok(list)
}

/// A form divided by a positive number that divides each of its numbers.
fn divided_form(alloc: Global, divisor: Whole, form: &LinEq) -> Result<LinEq, NoMemory>
    requires apart { ¬ (divisor ≡ pos 0) }
    requires positive { divisor ≡ pos (unsigned_abs divisor) }
    requires divides { DividesNumbers (unsigned_abs divisor) (triples form.now) }
    ensures { IfOk result (λ made. made ≡ divided_by (unsigned_abs divisor) form.now) }
{
    let unit = Mono::one(alloc);
    let terms = divided_coefficients(alloc, divisor, &unit, form.terms())?;
    Ok(LinEq::of_terms(terms))
}

/// Forms divided by a positive number that divides each of their numbers.
fn divided_forms(alloc: Global, divisor: Whole, forms: &[LinEq]) -> Result<Vec<LinEq>, NoMemory>
    requires apart { ¬ (divisor ≡ pos 0) }
    requires positive { divisor ≡ pos (unsigned_abs divisor) }
    requires divides { Every (λ E. DividesNumbers (unsigned_abs divisor) (triples E)) forms.now }
    ensures { IfOk result (λ made. made.items ≡ map (divided_by (unsigned_abs divisor)) forms.now) }
{
    let mut made = Vec::new(alloc);
    for form in forms {
        made.push(divided_form(alloc, divisor, form)?)?;
    }
    Ok(made)
}

/// Forms divided by the greatest common divisor of all their numbers; where all are empty they stay.
pub fn without_divisor(alloc: Global, forms: Vec<LinEq>) -> Result<Vec<LinEq>, NoMemory>
    ensures { IfOk result (λ made. made.items ≡ without_divisor forms.items) }
{
    let list = triples_of_all(alloc, forms.as_slice())?;
    let divisor = content_of(list.as_slice());
    if divisor.size() <= 1 {
        return Ok(forms);
    }
    divided_forms(alloc, divisor, forms.as_slice())
}
