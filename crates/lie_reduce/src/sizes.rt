// Rules with the absolute values of all coefficients.
ghost use Rattle.std.specs.Prelude.{◌≡◌, IfOk, IfErr};
ghost use Rattle.lie_geometry.specs.Coordinates as coordinates;
ghost use Rattle.lie_poly.specs.Failures.{IsStarved};
ghost use Rattle.lie_solved.specs.SolvedForms.{solved_equations};
ghost use Rattle.lie_reduce.specs.Bulks.{absolute_equations};
ghost use Rattle.lie_reduce.specs.Reductions.{CanReduce, IsAbsoluteRule};

use lie_jet::{absolute_polynomial, absolute_value};
use lie_ring::PolyFail;
use lie_solved::LeadRule;
use std::alloc::Global;

/// The rule with the absolute values of its coefficients.
pub fn absolute_rule(alloc: Global, rule: &LeadRule) -> Result<LeadRule, PolyFail>
    ensures rule { IfOk result (λ made. IsAbsoluteRule rule.now made) }
    ensures memory { IfErr result IsStarved }
{
    Ok(LeadRule {
        lead: rule.lead,
        c: absolute_value(rule.c),
        right: absolute_polynomial(alloc, &rule.right)?,
    })
}

/// The rules with the absolute values of all coefficients.
pub fn absolute_rules(alloc: Global, rules: &[LeadRule]) -> Result<Vec<LeadRule>, PolyFail>
    ensures equations { IfOk result (λ made. (S : coordinates.Space) → solved_equations S made.items
        ≡ absolute_equations (solved_equations S rules.now)) }
    ensures ready { IfOk result (λ made. (S : coordinates.Space) → CanReduce S rules.now → CanReduce S made.items) }
    ensures memory { IfErr result IsStarved }
{
    let mut made = Vec::new(alloc);
    for rule in rules {
        made.push(absolute_rule(alloc, rule)?)?;
    }
    Ok(made)
}
