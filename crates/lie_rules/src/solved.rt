// Forms solved for a derivative.
ghost use Rattle.std.specs.Prelude.{◌≡◌, ◌++◌, ◌∷◌, [], ◌<◌, ℕ, ℤ, pos, neg_ℤ, false, map, filter, not, List, MatchOption, MatchBool, IfOk};
ghost use Rattle.std.specs.Prelude.{OnOk, IfErr};
ghost use Rattle.std.specs.Ordering.{eq_by_cmp};
ghost use Rattle.lie_math.specs.Counts.{derivative_cmp};
ghost use Rattle.lie_math.specs.FiniteSum as finite;
ghost use Rattle.lie_math.specs.LinearForm.{LinearForm, forms};
ghost use Rattle.lie_math.specs.Polynomial.{WholePolynomial, constant};
ghost use Rattle.lie_systems.specs.Triples.{triples as triples_in_form};
ghost use Rattle.lie_jet.specs.Derivatives.{derivative_of};
ghost use Rattle.lie_lin.specs.Forms.{coefficients_of, triples_of};
ghost use Rattle.lie_lin.specs.Systems.{unknown_of};
ghost use Rattle.lie_steps.specs.Equations.{rest_of, depends, Lacks};
ghost use Rattle.lie_steps.specs.Substitute.{IsSolvedFor};
ghost use Rattle.lie_rules.specs.Solutions.{IsFormIn, IsNumber, IsSolved};

use lie_bytes::NoMemory;
use lie_change::mentions;
use lie_jet::{Der, compare_derivatives};
use lie_lin::{LinEq, Unknown, triples};
use lie_normal::{Coefficient, depends};
use lie_ring::{Mono, Polynomial, Whole};
use std::alloc::Global;

/// A form solved for a derivative: it is a number times the derivative, plus a rest without its unknown, in which no variable occurs
/// on which the unknown does not depend.
#[derive(Drop)]
pub struct Solved {
    /// The derivative.
    pub der: Der,
    /// The number.
    pub number: Whole,
    /// The rest.
    pub rest: LinEq,
}

/// The form solved for a derivative with its coefficient; None exactly where it is not solved for it.
pub fn solved_for(
    alloc: Global,
    eq: &LinEq,
    unknowns: &[Unknown],
    term: &(Der, Coefficient),
) -> Result<Option<Solved>, NoMemory>
    requires form { IsFormIn (map unknown_of unknowns.now) eq.now }
    requires coefficient { finite.value forms eq.now (derivative_of term.now.0) ≡ term.now.1 }
    ensures { IfOk result (λ found. MatchOption found
        ((c : ℤ) → ¬ (IsSolvedFor (map unknown_of unknowns.now) eq.now (derivative_of term.now.0) c))
        (λ s. (s.der ≡ term.now.0) × IsSolved (map unknown_of unknowns.now) eq.now s)) }
{
    match constant_of(alloc, &term.1)? {
        None => Ok(None),
        Some(number) => {
            let rest = rest_of(alloc, eq, &term.0)?;
            if mentions(&rest, term.0.unknown) {
                return Ok(None);
            }
            if !is_within(alloc, &rest, unknowns, term.0.unknown)? {
                return Ok(None);
            }
            Ok(Some(Solved {
                der: term.0,
                number,
                rest,
            }))
        }
    }
}

/// The number that a polynomial is; None exactly where it is none, or 0.
fn constant_of(alloc: Global, poly: &Coefficient) -> Result<Option<Whole>, NoMemory>
    ensures { IfOk result (λ found. MatchOption found ((c : ℤ) → ¬ (IsNumber c poly.now)) (λ c. IsNumber c poly.now)) }
{
    if poly.len() != 1 {
        return Ok(None);
    }
    let terms = poly.terms(alloc)?;
    Ok(number_of(terms.as_slice()))
}

/// The number that terms are; None exactly where they are none.
fn number_of(terms: &[(Mono, Whole)]) -> Option<Whole>
    ensures { (P : WholePolynomial) → P.list ≡ terms.now → MatchOption result ((c : ℤ) → ¬ (IsNumber c P)) (λ c. IsNumber c P) }
{
    if terms.len() != 1 {
        return None;
    }
    let term = &terms[0];
    if term.0.pairs().len() != 0 {
        return None;
    }
    Some(term.1)
}

/// Puts a copy of a derivative with its coefficient behind others, unless the derivative is another one.
fn push_other(
    out: &mut Vec<(Der, Coefficient)>,
    alloc: Global,
    der: &Der,
    term: &(Der, Coefficient),
) -> Result<(), NoMemory>
    ensures { OnOk result (coefficients_of out.new.items ≡ coefficients_of out.old.items
        ++ filter (λ e. not (eq_by_cmp derivative_cmp (derivative_of der.now) e.0)) (coefficients_of (term.now ∷ []))) }
{
    if compare_derivatives(der, &term.0).is_eq() {
        return Ok(());
    }
    let coefficient = term.1.copy(alloc)?;
    out.push((term.0, coefficient))?;
    Ok(())
}

/// A form without a derivative.
fn rest_of(alloc: Global, eq: &LinEq, der: &Der) -> Result<LinEq, NoMemory>
    ensures { IfOk result (λ rest. rest ≡ rest_of (derivative_of der.now) eq.now) }
{
    let mut out = Vec::new(alloc);
    for term in eq.terms() {
        push_other(&mut out, alloc, der, term)?;
    }
    Ok(LinEq::of_terms(out))
}

/// Whether no variable occurs in a form on which an unknown does not depend.
fn is_within(
    alloc: Global,
    form: &LinEq,
    unknowns: &[Unknown],
    number: u32,
) -> Result<bool, NoMemory>
    requires { IsFormIn (map unknown_of unknowns.now) form.now }
    ensures { IfOk result (λ yes. MatchBool yes
        ((v : ℕ) → depends (map unknown_of unknowns.now) number v ≡ false → Lacks (map unknown_of unknowns.now) v form.now)
        (¬ ((v : ℕ) → depends (map unknown_of unknowns.now) number v ≡ false → Lacks (map unknown_of unknowns.now) v form.now))) }
{
    let list = triples(alloc, form)?;
    for var in 0..8u8 {
        if depends(unknowns, number, var) {
            continue;
        }
        if occurs(list.as_slice(), unknowns, var) {
            return Ok(false);
        }
    }
    Ok(true)
}

/// Whether a variable occurs in triples: in a monomial, or an unknown depends on it.
fn occurs(list: &[(Der, Mono, Whole)], unknowns: &[Unknown], var: u8) -> bool
    requires { var < 8 }
    ensures { (E : LinearForm) → triples_of list.now ≡ triples_in_form E → MatchBool result
        (¬ (Lacks (map unknown_of unknowns.now) var E)) (Lacks (map unknown_of unknowns.now) var E) }
{
    for triple in list {
        if triple.1.exponent(u32::from(var)) != 0 {
            return true;
        }
        if depends(unknowns, triple.0.unknown, var) {
            return true;
        }
    }
    false
}
