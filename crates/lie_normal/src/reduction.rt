// What can be reduced in a linear form, and one reduction of it.
ghost use Rattle.std.specs.Prelude.{◌≡◌, map, IfOk, IfErr, OnOk, MatchOption};
ghost use Rattle.std.specs.List.{Contains, AllByRecursion as Every};
ghost use Rattle.lie_systems.specs.Works.{IsWorkWithin};
ghost use Rattle.lie_jet.specs.Derivatives.{derivative_of};
ghost use Rattle.lie_lin.specs.Systems.{unknown_of};
ghost use Rattle.lie_steps.specs.NormalForm.{reduced_once, reduction_made};
ghost use Rattle.lie_normal.specs.Leads.{AreOrdered, NoneDivides, IsGreatestDivided};
ghost use Rattle.lie_normal.specs.WorkCauses.{IsWorkCause};

use crate::combining::combine;
use crate::derivatives::derived_between;
use crate::leads::{PlacedLead, first_divisor};
use lie_jet::Der;
use lie_lin::{LinEq, Unknown, primitive};
use lie_ring::PolyFail;
use std::alloc::Global;

/// The greatest derivative of a form that a lead divides, and the first lead that divides it.
pub fn greatest_divided(eq: &LinEq, leads: &[PlacedLead]) -> Option<(Der, PlacedLead)>
    requires { AreOrdered leads.now }
    ensures { MatchOption result (Every (λ e. NoneDivides leads.now e.0) eq.now.list)
        (λ found. IsGreatestDivided eq.now leads.now (derivative_of found.0) found.1) }
{
    for term in eq.terms() {
        if let Some(divisor) = first_divisor(leads, &term.0) {
            return Some((term.0, divisor));
        }
    }
    None
}

/// The form combined with the equation, of which the derivative has the lead `der`, and normalised.
///
/// `Past` comes exactly where one of the derivatives or the combination is past a limit by its bulk.
pub fn reduced(
    alloc: Global,
    eq: &LinEq,
    unknowns: &[Unknown],
    der: &Der,
    equation: &LinEq,
    lead: &Der,
) -> Result<LinEq, PolyFail>
    ensures reduced { IfOk result (λ made. made ≡ reduced_once (map unknown_of unknowns.now) eq.now (derivative_of der.now) equation.now
        (derivative_of lead.now)) }
    ensures fits { OnOk result (IsWorkWithin (Contains (reduction_made (map unknown_of unknowns.now) eq.now (derivative_of der.now)
        equation.now (derivative_of lead.now)))) }
    ensures past { IfErr result (λ fail. IsWorkCause fail (Contains (reduction_made (map unknown_of unknowns.now) eq.now
        (derivative_of der.now) equation.now (derivative_of lead.now)))) }
{
    let raised = derived_between(alloc, equation, unknowns, lead, der)?;
    let combined = combine(alloc, der, eq, &raised)?;
    Ok(primitive(alloc, &combined)?)
}
