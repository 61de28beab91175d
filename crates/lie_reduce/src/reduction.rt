// The reduction of several polynomials at once by the rules of a solved system.
ghost use Rattle.std.specs.Prelude.{◌≡◌, ◌↔◌, ℕ, ℤ, pos, unsigned_abs, IsTrue, IfOk, IfErr, OnOk};
ghost use Rattle.std.specs.List.{Any, AllByRecursion as Every};
ghost use Rattle.lie_math.specs.Limits.{absolute};
ghost use Rattle.lie_math.specs.Polynomial.{0ᴾ, ◌+ᴾ◌, ◌*ᴾ◌, constant};
ghost use Rattle.lie_geometry.specs.SolvedEquations.{replacement, missing_powers, reduced_by};
ghost use Rattle.lie_ring.specs.Causes.{IsCause};
ghost use Rattle.lie_poly.specs.Failures.{IsStarved};
ghost use Rattle.lie_jet.specs.Listed.{sum_listed, bulk_listed};
ghost use Rattle.lie_solved.specs.Equations.{HaveJets};
ghost use Rattle.lie_solved.specs.SolvedForms.{solved_equations};
ghost use Rattle.lie_reduce.specs.Bulks.{absolute_equations, reduction_bulk_by};
ghost use Rattle.lie_reduce.specs.Reductions.{reductions, CanReduce, IsReductionCause};
ghost use Rattle.lie_reduce.specs.ReducedTerms.{power, replaced, reduced_term, AreExponents, ForExponents, IsKept, IsRuleAt};

use crate::exponents::greatest_exponents;
use crate::powers::{times_power, times_variable};
use lie_jet::{JetPoly, Space, jet_number};
use lie_ring::{Mono, PolyFail, Polynomial, Whole, constant_polynomial};
use lie_solved::LeadRule;
use std::alloc::Global;

/// The place of the first rule whose lead has the number.
fn rule_at(space: Space, rules: &[LeadRule], number: u32) -> Option<usize>
    requires { HaveJets space rules.now }
    ensures { IsRuleAt space rules.now number result }
{
    for (i, rule) in rules.iter().enumerate() {
        if jet_number(space, &rule.lead) == number {
            return Some(i);
        }
    }
    None
}

/// Whether a variable is replaced by 0.
fn is_removed(space: Space, rules: &[LeadRule], number: u32) -> bool
    requires { HaveJets space rules.now }
    ensures { IsTrue result ↔ (replacement (solved_equations space rules.now) number ≡ 0ᴾ) }
{
    match rule_at(space, rules, number) {
        Some(i) => rules[i].right.len() == 0,
        None => false,
    }
}

/// Whether a product of powers has a variable that is replaced by 0.
fn has_removed(space: Space, rules: &[LeadRule], pairs: &[(u32, u32)]) -> bool
    requires { HaveJets space rules.now }
    ensures found { IsTrue result → Any (λ p. replacement (solved_equations space rules.now) p.0 ≡ 0ᴾ) pairs.now }
    ensures none { (¬ (IsTrue result)) → Every (IsKept (solved_equations space rules.now)) pairs.now }
{
    for pair in pairs {
        if is_removed(space, rules, pair.0) {
            return true;
        }
    }
    false
}

/// A polynomial times a power of what a variable is replaced by.
fn times_replaced(
    alloc: Global,
    space: Space,
    rules: &[LeadRule],
    poly: JetPoly,
    pair: (u32, u32),
) -> Result<JetPoly, PolyFail>
    requires jets { HaveJets space rules.now }
    requires poly { ¬ (poly ≡ 0ᴾ) }
    requires kept { IsKept (solved_equations space rules.now) pair }
    ensures product { IfOk result (λ made. made ≡ poly *ᴾ power (replacement (solved_equations space rules.now) pair.0) pair.1) }
    ensures past { IfErr result (λ fail. IsCause fail (absolute poly
        *ᴾ power (absolute (replacement (solved_equations space rules.now) pair.0)) pair.1)) }
{
    match rule_at(space, rules, pair.0) {
        Some(i) => times_power(alloc, poly, &rules[i].right, pair.1),
        None => times_variable(alloc, poly, pair.0, pair.1),
    }
}

/// A polynomial times a product of powers, with the leads replaced.
fn times_all(
    alloc: Global,
    space: Space,
    rules: &[LeadRule],
    poly: JetPoly,
    pairs: &[(u32, u32)],
) -> Result<JetPoly, PolyFail>
    requires jets { HaveJets space rules.now }
    requires poly { ¬ (poly ≡ 0ᴾ) }
    requires kept { Every (IsKept (solved_equations space rules.now)) pairs.now }
    ensures product { IfOk result (λ made. made ≡ poly *ᴾ replaced (solved_equations space rules.now) pairs.now) }
    ensures past { IfErr result (λ fail. IsCause fail (absolute poly
        *ᴾ replaced (absolute_equations (solved_equations space rules.now)) pairs.now)) }
{
    let mut product = poly;
    for pair in pairs {
        product = times_replaced(alloc, space, rules, product, *pair)?;
    }
    Ok(product)
}

/// A polynomial times the powers of the factors that a monomial lacks.
fn times_missing(
    alloc: Global,
    space: Space,
    rules: &[LeadRule],
    greatest: &[u32],
    poly: JetPoly,
    mono: &Mono,
) -> Result<JetPoly, PolyFail>
    requires rules { CanReduce space rules.now }
    requires greatest { AreExponents space rules.now greatest.now }
    ensures product { ForExponents space rules.now greatest.now
        (λ e. IfOk result (λ made. made ≡ poly *ᴾ constant (missing_powers (solved_equations space rules.now) e mono.now))) }
    ensures past { ForExponents space rules.now greatest.now (λ e. IfErr result
        (λ fail. IsCause fail (absolute poly *ᴾ constant
        (missing_powers (absolute_equations (solved_equations space rules.now)) e mono.now)))) }
{
    let mut product = poly;
    for (i, rule) in rules.iter().enumerate() {
        let missing = greatest[i].saturating_sub(mono.exponent(jet_number(space, &rule.lead)));
        let factor: JetPoly = constant_polynomial(alloc, rule.c)?;
        product = times_power(alloc, product, &factor, missing)?;
    }
    Ok(product)
}

/// Puts the terms of a polynomial behind others.
pub fn push_terms(made: &mut Vec<(Mono, Whole)>, alloc: Global, p: &JetPoly) -> Result<(), PolyFail>
    ensures sum { OnOk result (sum_listed made.new.items ≡ sum_listed made.old.items +ᴾ p.now) }
    ensures bulk { OnOk result (bulk_listed made.new.items ≡ bulk_listed made.old.items +ᴾ absolute p.now) }
    ensures memory { IfErr result IsStarved }
{
    let mut terms = p.terms(alloc)?;
    made.append(&mut terms)?;
    Ok(())
}

/// Puts the terms of the reduction of a term behind others.
fn push_reduced(
    made: &mut Vec<(Mono, Whole)>,
    alloc: Global,
    space: Space,
    rules: &[LeadRule],
    greatest: &[u32],
    term: &(Mono, Whole),
) -> Result<(), PolyFail>
    requires rules { CanReduce space rules.now }
    requires greatest { AreExponents space rules.now greatest.now }
    requires not_zero { ¬ (term.now.1 ≡ pos 0) }
    ensures sum { ForExponents space rules.now greatest.now (λ e. OnOk result
        (sum_listed made.new.items ≡ sum_listed made.old.items
        +ᴾ reduced_term (solved_equations space rules.now) e term.now.0 term.now.1)) }
    ensures bulk { ForExponents space rules.now greatest.now (λ e. OnOk result
        (bulk_listed made.new.items ≡ bulk_listed made.old.items
        +ᴾ absolute (reduced_term (solved_equations space rules.now) e term.now.0 term.now.1))) }
    ensures past { ForExponents space rules.now greatest.now (λ e. IfErr result
        (λ fail. IsCause fail (reduced_term (absolute_equations (solved_equations space rules.now)) e term.now.0
        (pos (unsigned_abs term.now.1))))) }
{
    if has_removed(space, rules, term.0.pairs()) {
        return Ok(());
    }
    let number: JetPoly = constant_polynomial(alloc, term.1)?;
    let multiple = times_missing(alloc, space, rules, greatest, number, &term.0)?;
    let product = times_all(alloc, space, rules, multiple, term.0.pairs())?;
    push_terms(made, alloc, &product)
}

/// The reduction of a polynomial by the exponents of the leads. An error is one of the bulk of that.
pub fn reduced(
    alloc: Global,
    space: Space,
    rules: &[LeadRule],
    greatest: &[u32],
    p: &JetPoly,
) -> Result<JetPoly, PolyFail>
    requires rules { CanReduce space rules.now }
    requires greatest { AreExponents space rules.now greatest.now }
    ensures reduced { ForExponents space rules.now greatest.now
        (λ e. IfOk result (λ made. made ≡ reduced_by (solved_equations space rules.now) e p.now)) }
    ensures past { ForExponents space rules.now greatest.now (λ e. IfErr result
        (λ fail. IsCause fail (reduction_bulk_by (solved_equations space rules.now) e p.now))) }
{
    let terms = p.terms(alloc)?;
    let mut made = Vec::new(alloc);
    for term in &terms {
        push_reduced(&mut made, alloc, space, rules, greatest, term)?;
    }
    JetPoly::of_terms(alloc, made.as_slice())
}

/// The polynomials with each lead replaced and each term multiplied so that in all of them the terms have the same powers of the
/// factors: those of the greatest exponents of the leads in any of the polynomials.
///
/// An error is one of the bulk of a reduction: of the absolute values, by the absolute values of the rules.
pub fn reduced_all(
    alloc: Global,
    space: Space,
    rules: &[LeadRule],
    polynomials: &[JetPoly],
) -> Result<Vec<JetPoly>, PolyFail>
    requires { CanReduce space rules.now }
    ensures reduced { IfOk result (λ made. made.items ≡ reductions (solved_equations space rules.now) polynomials.now) }
    ensures past { IfErr result (IsReductionCause (solved_equations space rules.now) polynomials.now) }
{
    let greatest = greatest_exponents(alloc, space, rules, polynomials)?;
    let mut made = Vec::new(alloc);
    for p in polynomials {
        let next = reduced(alloc, space, rules, greatest.as_slice(), p)?;
        made.push(next)?;
    }
    Ok(made)
}
