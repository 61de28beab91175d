// Derivatives of linear forms by counts, each made from the one before it.
ghost use Rattle.std.specs.Prelude.{◌≡◌, ◌<◌, map, IfOk, IfErr, OnOk};
ghost use Rattle.std.specs.Fn.{iterate};
ghost use Rattle.std.specs.List.{Contains};
ghost use Rattle.lie_systems.specs.Works.{IsWorkWithin};
ghost use Rattle.lie_jet.specs.Derivatives.{derivative_of};
ghost use Rattle.lie_lin.specs.Systems.{unknown_of};
ghost use Rattle.lie_steps.specs.Bulks.{derivatives_made, derivatives_made_by};
ghost use Rattle.lie_steps.specs.Derivatives.{derivative, derivatives, missing};
ghost use Rattle.lie_normal.specs.WorkCauses.{IsWorkCause};

use crate::copying::copy;
use crate::derivative::derive;
use lie_jet::Der;
use lie_lin::{LinEq, Unknown};
use lie_ring::PolyFail;
use std::alloc::Global;

/// How many variables a derivative has counts for.
const VARIABLES: u8 = 8;

/// The form derived as often by each variable as `to` is derived more often than `from`, by the first variable first.
///
/// `Past` comes exactly where one of these derivatives is past a limit by its bulk.
pub fn derived_between(
    alloc: Global,
    eq: &LinEq,
    unknowns: &[Unknown],
    from: &Der,
    to: &Der,
) -> Result<LinEq, PolyFail>
    ensures derivative { IfOk result (λ made. made ≡ derivatives (map unknown_of unknowns.now)
        (missing (derivative_of from.now).counts (derivative_of to.now).counts) eq.now) }
    ensures fits { OnOk result (IsWorkWithin (Contains (derivatives_made (map unknown_of unknowns.now)
        (missing (derivative_of from.now).counts (derivative_of to.now).counts) eq.now))) }
    ensures past { IfErr result (λ fail. IsWorkCause fail (Contains (derivatives_made (map unknown_of unknowns.now)
        (missing (derivative_of from.now).counts (derivative_of to.now).counts) eq.now))) }
{
    let mut made = copy(alloc, eq)?;
    for var in 0..VARIABLES {
        let times = to.counts[usize::from(var)].saturating_sub(from.counts[usize::from(var)]);
        made = derived_often(alloc, made, unknowns, var, times)?;
    }
    Ok(made)
}

/// The form derived so often by one variable.
pub fn derived_often(
    alloc: Global,
    eq: LinEq,
    unknowns: &[Unknown],
    var: u8,
    times: u8,
) -> Result<LinEq, PolyFail>
    requires { var < 8 }
    ensures derivative { IfOk result (λ made. made ≡ iterate (derivative (map unknown_of unknowns.now) var) times eq) }
    ensures fits { OnOk result (IsWorkWithin (Contains (derivatives_made_by (map unknown_of unknowns.now) var times eq))) }
    ensures past { IfErr result (λ fail. IsWorkCause fail (Contains (derivatives_made_by (map unknown_of unknowns.now) var times eq))) }
{
    let mut made = eq;
    for _ in 0..times {
        made = derive(alloc, &made, unknowns, var)?;
    }
    Ok(made)
}
