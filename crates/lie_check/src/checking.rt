// Whether a vector field is a symmetry of a solved system.
ghost use Rattle.std.specs.Prelude.{◌≡◌, IfOk, IfErr, OnOk};
ghost use Rattle.lie_math.specs.VectorField.{component};
ghost use Rattle.lie_geometry.specs.Invariance.{IsFieldOn};
ghost use Rattle.lie_solved.specs.Solved.{equations_of};
ghost use Rattle.lie_solved.specs.SolvedForms.{solved_equations};
ghost use Rattle.lie_solved.specs.SolvedRules.{AreSolvedRules};
ghost use Rattle.lie_check.specs.Actions.{AreActionsWithin, IsActionCause};
ghost use Rattle.lie_check.specs.Verdicts.{IsVerdict, next_verdict};

use crate::coefficients::coefficients_among;
use crate::remainders::remainder;
use crate::verdict::Verdict;
use lie_jet::{Field, JetPoly, Space};
use lie_reduce::{applied_field, greatest_order, occurring_numbers};
use lie_ring::PolyFail;
use lie_solved::{LeadRule, Solved};
use std::alloc::Global;

/// Whether the field meets the invariance condition of the system (Olver, Applications of Lie Groups to Differential Equations,
/// section 2.3): the prolonged field, applied to each equation, is reduced to 0. The field has a part for each of the p + q
/// variables, in these variables alone.
///
/// `Past` comes exactly where an action is past a limit: a prolonged coefficient, or for an equation the prolonged field applied to
/// it, or the reduction of that, each with absolute values and plus signs from the true results before it.
pub fn check(alloc: Global, solved: &Solved, field: &Field) -> Result<Verdict, PolyFail>
    requires { IsFieldOn solved.now.system.space field.now }
    ensures verdict { IfOk result (IsVerdict solved.now.system.space (equations_of solved.now) (component field.now)) }
    ensures fits { OnOk result (AreActionsWithin solved.now.system.space (equations_of solved.now) (component field.now)) }
    ensures past { IfErr result (IsActionCause solved.now.system.space (equations_of solved.now) (component field.now)) }
{
    verdict_of(alloc, solved.system.space, solved.rules.as_slice(), field)
}

/// Whether the field meets the invariance condition of the equations of the rules, each tested although one before it fails.
fn verdict_of(
    alloc: Global,
    space: Space,
    rules: &[LeadRule],
    field: &Field,
) -> Result<Verdict, PolyFail>
    requires rules { AreSolvedRules space rules.now }
    requires field { IsFieldOn space field.now }
    ensures verdict { IfOk result (IsVerdict space (solved_equations space rules.now) (component field.now)) }
    ensures fits { OnOk result (AreActionsWithin space (solved_equations space rules.now) (component field.now)) }
    ensures past { IfErr result (IsActionCause space (solved_equations space rules.now) (component field.now)) }
{
    let order = greatest_order(alloc, space, rules)?;
    let numbers = occurring_numbers(alloc, space, rules)?;
    let coefficients = coefficients_among(alloc, space, field, order, numbers.as_slice())?;
    let mut verdict = Verdict::Yes;
    for (i, rule) in rules.iter().enumerate() {
        let applied = applied_field(alloc, space, rule, coefficients.as_slice())?;
        let rest = remainder(alloc, space, rules, applied)?;
        verdict = first_failure(verdict, i as u32 + 1, rest);
    }
    Ok(verdict)
}

/// The verdict after one more equation.
fn first_failure(verdict: Verdict, equation: u32, remainder: JetPoly) -> Verdict
    ensures { result ≡ next_verdict verdict equation remainder }
{
    match verdict {
        Verdict::Yes => {
            if remainder.len() == 0 {
                return Verdict::Yes;
            }
            Verdict::No {
                equation,
                remainder,
            }
        }
        Verdict::No {
            equation,
            remainder,
        } => Verdict::No {
            equation,
            remainder,
        },
    }
}
