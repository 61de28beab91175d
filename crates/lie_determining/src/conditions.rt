// The reduced conditions of the field whose components are unknown functions.
ghost use Rattle.std.specs.Prelude.{◌≡◌, ◌≤◌, ◌<◌, ◌^◌, map, length, slice_index_or, unsigned_abs, pos, IfOk, IfErr, OnOk};
ghost use Rattle.lie_math.specs.Limits.{absolute};
ghost use Rattle.lie_math.specs.LinearForm.{each_coefficient};
ghost use Rattle.lie_geometry.specs.Invariance.{greatest_order as greatest_order_of};
ghost use Rattle.lie_geometry.specs.SymbolicProlongation.{symbolic_application as application_of};
ghost use Rattle.lie_systems.specs.Bulk.{IsFormWithinLimits};
ghost use Rattle.lie_form.specs.FormLimits.{IsFormCause};
ghost use Rattle.lie_poly.specs.Failures.{IsStarved};
ghost use Rattle.lie_solved.specs.declared.solved.LeadRule.{LeadRule as ARule};
ghost use Rattle.lie_solved.specs.SolvedForms.{solved_equation, solved_equations};
ghost use Rattle.lie_solved.specs.SolvedRules.{AreSolvedRules};
ghost use Rattle.lie_determining.specs.AppliedForms.{AreCoordinateForms};
ghost use Rattle.lie_reduce.specs.Bulks.{absolute_equation, absolute_equations};
ghost use Rattle.lie_determining.specs.Conditions.{condition_of, conditions_of, IsConditionWithin};
ghost use Rattle.lie_determining.specs.Conditions.{IsConditionCause, AreFormActionsWithin, IsFormActionCause};
ghost use Rattle.lie_reduce.specs.SolvedRule.{IsSolvedRule};
ghost use Rattle.lie_reduce.specs.Reductions.{CanReduce};
ghost use Rattle.std.specs.List.{AllByRecursion as Every, Contains};
ghost use Rattle.lie_determining.specs.SymbolicBulks.{symbolic_application_bulk};
ghost use Rattle.lie_jet.specs.Limits.{greatest_written_order};

use crate::symbolic_application::symbolic_application;
use crate::symbolic_reduction::symbolic_reduction;
use lie_form::SymForm;
use lie_jet::{Space, jet_number, space_is_small};
use lie_reduce::{absolute_rules, greatest_order, occurring_numbers};
use lie_ring::{PolyFail, Ring, Whole};
use lie_solved::LeadRule;
use lie_symbolic::{coefficients_are_within_limits, prolong_sym};
use std::alloc::Global;

/// The forms with the absolute values of all coefficients.
fn with_absolute_values(alloc: Global, forms: &[SymForm]) -> Result<Vec<SymForm>, PolyFail>
    ensures absolute { IfOk result (λ made. made.items ≡ map (each_coefficient absolute) forms.now) }
    ensures memory { IfErr result IsStarved }
{
    let mut made = Vec::new(alloc);
    for form in forms {
        made.push(form.absolute(alloc)?)?;
    }
    Ok(made)
}

/// The field of unknown functions applied to the equation of a rule: first with absolute values, where nothing cancels, and then
/// truly. The forms are its coefficients at the coordinates that occur in the equations of the rules, of which that of the rule is
/// one; the second rule and the second forms are the first ones with absolute values.
fn applied(
    alloc: Global,
    space: Space,
    rules: &[LeadRule],
    rule: &LeadRule,
    absolutes: &LeadRule,
    forms: &[SymForm],
    absolute_forms: &[SymForm],
) -> Result<SymForm, PolyFail>
    requires rule { IsSolvedRule space rule.now }
    requires inside { Contains (solved_equations space rules.now) (solved_equation space rule.now) }
    requires absolutes { solved_equation space absolutes.now ≡ absolute_equation (solved_equation space rule.now) }
    requires order { greatest_order_of space (solved_equations space rules.now) ≤ greatest_written_order }
    requires forms { AreCoordinateForms space (solved_equations space rules.now) forms.now }
    requires absolute_forms { absolute_forms.now ≡ map (each_coefficient absolute) forms.now }
    ensures value { IfOk result (λ made. made ≡ application_of space (solved_equations space rules.now) (solved_equation space rule.now)) }
    ensures fits { OnOk result (IsFormWithinLimits (symbolic_application_bulk space (solved_equations space rules.now)
        (solved_equation space rule.now))) }
    ensures past { IfErr result (λ fail. IsFormCause fail (symbolic_application_bulk space (solved_equations space rules.now)
        (solved_equation space rule.now))) }
{
    let lead = jet_number(space, &rule.lead);
    let bulk = symbolic_application(alloc, absolute_forms, absolutes, lead, Whole::one())?;
    bulk.within_limits()?;
    symbolic_application(alloc, forms, rule, lead, Whole::one().neg())
}

/// The reduced condition of the equation of a rule.
fn condition(
    alloc: Global,
    space: Space,
    rules: &[LeadRule],
    absolutes: &[LeadRule],
    place: usize,
    forms: &[SymForm],
    absolute_forms: &[SymForm],
) -> Result<SymForm, PolyFail>
    requires rules { AreSolvedRules space rules.now }
    requires absolutes { solved_equations space absolutes.now ≡ absolute_equations (solved_equations space rules.now) }
    requires ready { CanReduce space absolutes.now }
    requires place { place < length rules.now }
    requires order { greatest_order_of space (solved_equations space rules.now) ≤ greatest_written_order }
    requires forms { AreCoordinateForms space (solved_equations space rules.now) forms.now }
    requires absolute_forms { absolute_forms.now ≡ map (each_coefficient absolute) forms.now }
    ensures value { IfOk result (λ made. (d : ARule) → made ≡ condition_of space (solved_equations space rules.now)
        (solved_equation space (slice_index_or rules.now place d))) }
    ensures fits { OnOk result ((d : ARule) → IsConditionWithin space (solved_equations space rules.now)
        (solved_equation space (slice_index_or rules.now place d))) }
    ensures within { IfOk result IsFormWithinLimits }
    ensures past { IfErr result (λ fail. (d : ARule) → IsConditionCause space (solved_equations space rules.now)
        (solved_equation space (slice_index_or rules.now place d)) fail) }
{
    let applied = applied(
        alloc,
        space,
        rules,
        &rules[place],
        &absolutes[place],
        forms,
        absolute_forms,
    )?;
    symbolic_reduction(alloc, space, rules, absolutes, &applied)
}

/// The reduced conditions of the equations of the rules.
///
/// `Past` comes exactly where an action is past a limit: a prolonged coefficient, or for an equation the prolonged field applied to
/// it, or the reduction of that, each with absolute values and plus signs from the true results before it. No prolonged coefficient
/// is past one (`coefficients_are_within_limits`), so those alone are made that occur in an equation.
pub fn reduced_conditions(
    alloc: Global,
    space: Space,
    rules: &[LeadRule],
) -> Result<Vec<SymForm>, PolyFail>
    requires { AreSolvedRules space rules.now }
    ensures conditions { IfOk result (λ made. made.items ≡ conditions_of space (solved_equations space rules.now)) }
    ensures within { IfOk result (λ made. Every IsFormWithinLimits made.items) }
    ensures fits { OnOk result (AreFormActionsWithin space (solved_equations space rules.now)) }
    ensures past { IfErr result (IsFormActionCause space (solved_equations space rules.now)) }
{
    space_is_small(space);
    coefficients_are_within_limits(space);
    let order = greatest_order(alloc, space, rules)?;
    let numbers = occurring_numbers(alloc, space, rules)?;
    let forms = prolong_sym(alloc, space, order, numbers.as_slice())?;
    let absolute_forms = with_absolute_values(alloc, forms.as_slice())?;
    let absolutes = absolute_rules(alloc, rules)?;
    let mut made = Vec::new(alloc);
    for place in 0..rules.len() {
        let next = condition(
            alloc,
            space,
            rules,
            absolutes.as_slice(),
            place,
            forms.as_slice(),
            absolute_forms.as_slice(),
        )?;
        made.push(next)?;
    }
    Ok(made)
}
