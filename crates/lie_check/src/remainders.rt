// The condition of an equation: what the prolonged field applied to it is reduced to.
ghost use Rattle.std.specs.Prelude.{◌≡◌, ◌∷◌, [], length, IfOk, IfErr, OnOk};
ghost use Rattle.lie_math.specs.Limits.{IsWithinLimits};
ghost use Rattle.lie_math.specs.Polynomial.{WholePolynomial};
ghost use Rattle.lie_geometry.specs.SolvedEquations.{reduced};
ghost use Rattle.lie_ring.specs.Causes.{IsCause};
ghost use Rattle.lie_solved.specs.SolvedForms.{solved_equations};
ghost use Rattle.lie_reduce.specs.Bulks.{reduction_bulk};
ghost use Rattle.lie_reduce.specs.Reductions.{CanReduce};

use lie_jet::{JetPoly, Space, absolute_polynomial};
use lie_reduce::{absolute_rules, reduced_all};
use lie_ring::PolyFail;
use lie_solved::LeadRule;
use std::alloc::Global;

/// The reduction of a polynomial: first with absolute values, where nothing cancels, and then truly.
pub fn remainder(
    alloc: Global,
    space: Space,
    rules: &[LeadRule],
    applied: JetPoly,
) -> Result<JetPoly, PolyFail>
    requires { CanReduce space rules.now }
    ensures value { IfOk result (λ made. made ≡ reduced (solved_equations space rules.now) applied) }
    ensures fits { OnOk result (IsWithinLimits (reduction_bulk (solved_equations space rules.now) applied)) }
    ensures past { IfErr result (λ fail. IsCause fail (reduction_bulk (solved_equations space rules.now) applied)) }
{
    let absolutes = absolute_rules(alloc, rules)?;
    let absolute = absolute_polynomial(alloc, &applied)?;
    let bulk = alone(reduced_all(alloc, space, absolutes.as_slice(), &[absolute])?);
    bulk.is_within_limits();
    Ok(alone(reduced_all(alloc, space, rules, &[applied])?))
}

/// The polynomial of a list of one.
fn alone(made: Vec<JetPoly>) -> JetPoly
    requires { length made.items ≡ 1 }
    ensures { (P : WholePolynomial) → made.items ≡ P ∷ [] → result ≡ P }
{
    let mut made = made;
    match made.pop() {
        Some(p) => p,
        None => unreachable!(),
    }
}
