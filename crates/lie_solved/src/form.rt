// The solved form of a system.
ghost use Rattle.std.specs.Prelude.{◌≡◌, ◌≤◌, IfOk, IfErr, length, map, MatchOption};
ghost use Rattle.std.specs.List.{AllByRecursion as Every, list_any};
ghost use Rattle.lie_geometry.specs.SolvedEquations.{is_lead};
ghost use Rattle.lie_system.specs.Equations.{equation_read};
ghost use Rattle.lie_system.specs.Limits.{greatest_equation_count};
ghost use Rattle.lie_system.specs.KeptSystems.{system_read};
ghost use Rattle.lie_solved.specs.Causes.{failed_at};
ghost use Rattle.lie_solved.specs.SolvedForms.{solved_equations, IsSolvedForm};
ghost use Rattle.lie_solved.specs.Refusals.{IsSolveFormCause, HasNoLead, IsFirstInside};
ghost use Rattle.lie_system.specs.Written.{IsWritten, AreWritten};
ghost use Rattle.lie_solved.specs.Equations.{AreRules, HaveJets, IsNextRule, IsRefusalAt, variables_in, variables_of};
ghost use Rattle.lie_solved.specs.Solved.{equations_of};

use crate::rule::{RuleFail, rule_of};
use crate::solved::{LeadRule, NotKind, SolveFormFail, Solved};
use lie_bytes::NoMemory;
use lie_jet::{Space, jet_number};
use lie_ring::{Mono, Polynomial, Whole};
use lie_system::{Equation, System};
use std::alloc::Global;

/// Whether a number is that of the lead of a rule.
fn is_lead(space: Space, rules: &[LeadRule], number: u32) -> bool
    requires { HaveJets space rules.now }
    ensures { result ≡ is_lead (solved_equations space rules.now) number }
{
    for rule in rules {
        if jet_number(space, &rule.lead) == number {
            return true;
        }
    }
    false
}

/// The failure of the equation with a number.
fn failed_at(place: u32, fail: RuleFail) -> SolveFormFail
    ensures { result ≡ failed_at place fail }
{
    match fail {
        RuleFail::Not(kind) => SolveFormFail::Not(kind, place),
        RuleFail::NoMemory => SolveFormFail::NoMemory,
    }
}

/// The rule of the equation with a number, behind the rules of those before it.
fn next_rule(
    alloc: Global,
    space: Space,
    rules: &[LeadRule],
    equation: &Equation,
    place: u32,
) -> Result<LeadRule, SolveFormFail>
    requires jets { HaveJets space rules.now }
    requires written { IsWritten space (equation_read space equation.now) }
    ensures rule { IfOk result (IsNextRule space rules.now (equation_read space equation.now)) }
    ensures refusal { IfErr result (IsRefusalAt space rules.now (equation_read space equation.now) place) }
{
    match rule_of(alloc, space, equation) {
        Ok(rule) => {
            if is_lead(space, rules, jet_number(space, &rule.lead)) {
                return Err(SolveFormFail::Not(NotKind::LeadRepeated, place));
            }
            Ok(rule)
        }
        Err(fail) => Err(failed_at(place, fail)),
    }
}

/// The rules of equations, whose leads are distinct.
fn rules_of(
    alloc: Global,
    space: Space,
    equations: &[Equation],
) -> Result<Vec<LeadRule>, SolveFormFail>
    requires { AreWritten space (map (equation_read space) equations.now) }
    ensures rules { IfOk result (λ rs. AreRules space (map (equation_read space) equations.now) rs.items) }
    ensures refusal { IfErr result (IsSolveFormCause space (map (equation_read space) equations.now)) }
{
    let mut rules: Vec<LeadRule> = Vec::new(alloc);
    for (i, equation) in equations.iter().enumerate() {
        let rule = next_rule(alloc, space, rules.as_slice(), equation, i as u32 + 1)?;
        rules.push(rule)?;
    }
    Ok(rules)
}

/// Whether a product of powers has the lead of a rule.
fn has_lead(space: Space, rules: &[LeadRule], pairs: &[(u32, u32)]) -> bool
    requires { HaveJets space rules.now }
    ensures { result ≡ list_any (is_lead (solved_equations space rules.now)) (variables_in pairs.now) }
{
    for pair in pairs {
        if is_lead(space, rules, pair.0) {
            return true;
        }
    }
    false
}

/// Whether terms have the lead of a rule.
fn have_lead(space: Space, rules: &[LeadRule], terms: &[(Mono, Whole)]) -> bool
    requires { HaveJets space rules.now }
    ensures { result ≡ list_any (is_lead (solved_equations space rules.now)) (variables_of terms.now) }
{
    for term in terms {
        if has_lead(space, rules, term.0.pairs()) {
            return true;
        }
    }
    false
}

/// The place, counted from 1, of the first rule whose right side has the lead of one.
fn first_inside(alloc: Global, space: Space, rules: &[LeadRule]) -> Result<Option<u32>, NoMemory>
    requires few { length rules.now ≤ greatest_equation_count }
    requires jets { HaveJets space rules.now }
    ensures { IfOk result (λ place. MatchOption place
        (Every (HasNoLead (solved_equations space rules.now)) (solved_equations space rules.now))
        (IsFirstInside (solved_equations space rules.now))) }
{
    for (i, rule) in rules.iter().enumerate() {
        let terms = rule.right.terms(alloc)?;
        if have_lead(space, rules, terms.as_slice()) {
            return Ok(Some(i as u32 + 1));
        }
    }
    Ok(None)
}

/// The solved form of a system.
pub fn solve_form(alloc: Global, system: System) -> Result<Solved, SolveFormFail>
    ensures form { IfOk result (λ solved. IsSolvedForm system.space (system_read system).equations (equations_of solved)) }
    ensures system { IfOk result (λ solved. solved.system ≡ system) }
    ensures refusal { IfErr result (IsSolveFormCause system.space (system_read system).equations) }
{
    let rules = rules_of(alloc, system.space, system.equations.as_slice())?;
    match first_inside(alloc, system.space, rules.as_slice())? {
        Some(place) => Err(SolveFormFail::Not(NotKind::LeadInside, place)),
        None => Ok(Solved { system, rules }),
    }
}
