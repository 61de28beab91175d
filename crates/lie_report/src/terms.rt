// The terms of linear forms and of fields, as they are printed.
ghost use Rattle.std.specs.Prelude.{◌≡◌, ◌++◌, IfOk, OnOk, map, Some};
ghost use Rattle.lie_lin.specs.Systems.{unknown_of};
ghost use Rattle.lie_print.specs.Printing.{base_vector};
ghost use Rattle.lie_print.specs.PrintedTerms.{printed};
ghost use Rattle.lie_report.specs.Terms.{AreRising, shown_number, form_terms, field_terms};

use lie_bytes::NoMemory;
use lie_jet::JetPoly;
use lie_lin::{LinEq, Unknown, triples};
use lie_print::printed_term::{LastFactor, Term};
use lie_ring::Polynomial;
use std::alloc::Global;

// The number by which the unknown with a number is shown, found by halving.
fn shown_number(unknowns: &[Unknown], number: u32) -> usize
    requires { AreRising (map unknown_of unknowns.now) }
    ensures { result ≡ shown_number (map unknown_of unknowns.now) number }
{
    unknowns.partition_point(|unknown| unknown.number < number) + 1
}

/// The terms of a linear form: the greatest derivative first, and for each the terms of its coefficient in print order. The unknowns
/// are those of its system.
pub fn form_terms(alloc: Global, unknowns: &[Unknown], form: &LinEq) -> Result<Vec<Term>, NoMemory>
    requires { AreRising (map unknown_of unknowns.now) }
    ensures { IfOk result (λ ts. map printed ts.items ≡ form_terms (map unknown_of unknowns.now) form.now) }
{
    let mut terms = Vec::new(alloc);
    for (derivative, monomial, number) in triples(alloc, form)? {
        let shown = shown_number(unknowns, derivative.unknown);
        terms.push(Term {
            number,
            monomial,
            last: Some(LastFactor::Derivative(shown, derivative.counts)),
        })?;
    }
    Ok(terms)
}

// Puts the terms of a component behind others.
fn push_component(
    terms: &mut Vec<Term>,
    alloc: Global,
    variable: usize,
    component: &JetPoly,
) -> Result<(), NoMemory>
    ensures { OnOk result (map printed terms.new.items
        ≡ map printed terms.old.items ++ map (λ t. (t.1, t.0, Some (base_vector variable))) (component.now).list) }
{
    for (monomial, number) in component.terms(alloc)? {
        terms.push(Term {
            number,
            monomial,
            last: Some(LastFactor::BaseVector(variable)),
        })?;
    }
    Ok(())
}

/// The terms of a field with these components: component by component, each with the base vector at its variable.
pub fn field_terms(alloc: Global, components: &[JetPoly]) -> Result<Vec<Term>, NoMemory>
    ensures { IfOk result (λ ts. map printed ts.items ≡ field_terms 0 components.now) }
{
    let mut terms = Vec::new(alloc);
    for (variable, component) in components.iter().enumerate() {
        push_component(&mut terms, alloc, variable, component)?;
    }
    Ok(terms)
}
