// The prolonged field applied to an equation.
ghost use Rattle.std.specs.Prelude.{◌≡◌, unsigned_abs, IfOk, IfErr, OnOk};
ghost use Rattle.lie_math.specs.Limits.{IsWithinLimits, absolute};
ghost use Rattle.lie_math.specs.PartialDerivative.{partial};
ghost use Rattle.lie_math.specs.Polynomial.{◌+ᴾ◌, ◌*ᴾ◌};
ghost use Rattle.lie_math.specs.Variables.{FreeOf};
ghost use Rattle.lie_geometry.specs.SolvedEquations.{difference};
ghost use Rattle.lie_ring.specs.Causes.{IsCause};
ghost use Rattle.lie_poly.specs.Failures.{IsStarved};
ghost use Rattle.lie_jet.specs.Jets.{IsJet};
ghost use Rattle.lie_jet.specs.Limits.{greatest_jet_order};
ghost use Rattle.lie_solved.specs.SolvedForms.{solved_equation};
ghost use Rattle.lie_jet.specs.Listed.{sum_listed, bulk_listed};
ghost use Rattle.lie_reduce.specs.Applications.{applied_to, absolute_coefficients, lead_number, rule_sides, sides_bulk};

use crate::reduction::push_terms;
use crate::sizes::absolute_rule;
use lie_jet::{JetPoly, Space, absolute_polynomial, jet_number};
use lie_ring::{Mono, PolyFail, Polynomial, Ring, Whole, constant_polynomial};
use lie_solved::LeadRule;
use std::alloc::Global;

/// The derivative of `c * lead + sign * right` by a variable, where the right side does not have the lead, and the sign is 1 or -1.
pub fn derivative_of_sides(
    alloc: Global,
    rule: &LeadRule,
    lead: u32,
    sign: Whole,
    number: u32,
) -> Result<JetPoly, PolyFail>
    requires free { FreeOf lead rule.now.right }
    requires unit { unsigned_abs sign ≡ 1 }
    ensures slope { IfOk result (λ made. made ≡ partial number (rule_sides lead sign rule.now)) }
    ensures past { IfErr result (λ fail. IsCause fail (partial number (sides_bulk lead rule.now))) }
{
    if number == lead {
        return Ok(constant_polynomial(alloc, rule.c)?);
    }
    let derivative = rule.right.derive(alloc, number)?;
    derivative.scale(alloc, &sign)
}

/// Puts the terms of a coefficient times the derivative of `c * lead + sign * right` by its coordinate behind others.
fn push_part(
    made: &mut Vec<(Mono, Whole)>,
    alloc: Global,
    rule: &LeadRule,
    lead: u32,
    sign: Whole,
    number: u32,
    coefficient: &JetPoly,
) -> Result<(), PolyFail>
    requires free { FreeOf lead rule.now.right }
    requires unit { unsigned_abs sign ≡ 1 }
    ensures sum { OnOk result (sum_listed made.new.items ≡ sum_listed made.old.items +ᴾ coefficient.now
        *ᴾ partial number (rule_sides lead sign rule.now)) }
    ensures bulk { OnOk result (bulk_listed made.new.items ≡ bulk_listed made.old.items
        +ᴾ absolute (coefficient.now *ᴾ partial number (rule_sides lead sign rule.now))) }
    ensures past { IfErr result (λ fail. IsCause fail (absolute coefficient.now *ᴾ partial number (sides_bulk lead rule.now))) }
{
    if coefficient.len() == 0 {
        return Ok(());
    }
    let slope = derivative_of_sides(alloc, rule, lead, sign, number)?;
    let part = coefficient.mul(alloc, &slope)?;
    push_terms(made, alloc, &part)
}

/// The sum, over coordinates, of the coefficients times the derivatives of `c * lead + sign * right`.
pub fn applied(
    alloc: Global,
    rule: &LeadRule,
    lead: u32,
    sign: Whole,
    coefficients: &[(u32, JetPoly)],
) -> Result<JetPoly, PolyFail>
    requires free { FreeOf lead rule.now.right }
    requires unit { unsigned_abs sign ≡ 1 }
    ensures value { IfOk result (λ made. made ≡ applied_to coefficients.now (rule_sides lead sign rule.now)) }
    ensures past { IfErr result (λ fail. IsCause fail (applied_to (absolute_coefficients coefficients.now) (sides_bulk lead rule.now))) }
{
    let mut made = Vec::new(alloc);
    for coefficient in coefficients {
        push_part(
            &mut made,
            alloc,
            rule,
            lead,
            sign,
            coefficient.0,
            &coefficient.1,
        )?;
    }
    JetPoly::of_terms(alloc, made.as_slice())
}

/// The coefficients with absolute values.
fn absolute_coefficients(
    alloc: Global,
    coefficients: &[(u32, JetPoly)],
) -> Result<Vec<(u32, JetPoly)>, PolyFail>
    ensures absolute { IfOk result (λ made. made.items ≡ absolute_coefficients coefficients.now) }
    ensures memory { IfErr result IsStarved }
{
    let mut made = Vec::new(alloc);
    for coefficient in coefficients {
        let absolute = absolute_polynomial(alloc, &coefficient.1)?;
        made.push((coefficient.0, absolute))?;
    }
    Ok(made)
}

/// The prolonged field applied to an equation: first with absolute values, where nothing cancels, and then truly.
pub fn applied_field(
    alloc: Global,
    space: Space,
    rule: &LeadRule,
    coefficients: &[(u32, JetPoly)],
) -> Result<JetPoly, PolyFail>
    requires jet { IsJet space greatest_jet_order rule.now.lead }
    requires free { FreeOf (lead_number space rule.now) rule.now.right }
    ensures value { IfOk result (λ made. made ≡ applied_to coefficients.now (difference (solved_equation space rule.now))) }
    ensures fits { OnOk result (IsWithinLimits (applied_to (absolute_coefficients coefficients.now)
        (sides_bulk (lead_number space rule.now) rule.now))) }
    ensures past { IfErr result (λ fail. IsCause fail (applied_to (absolute_coefficients coefficients.now)
        (sides_bulk (lead_number space rule.now) rule.now))) }
{
    let lead = jet_number(space, &rule.lead);
    let absolute = absolute_rule(alloc, rule)?;
    let absolutes = absolute_coefficients(alloc, coefficients)?;
    let bulk = applied(alloc, &absolute, lead, Whole::one(), absolutes.as_slice())?;
    bulk.is_within_limits();
    applied(alloc, rule, lead, Whole::one().neg(), coefficients)
}
