// The parts of a form by the variables on which none of its unknowns depends, and the first of them with one derivative.
ghost use Rattle.std.specs.Prelude.{◌≡◌, ◌++◌, ◌∷◌, [], List, map, IfOk};
ghost use Rattle.lie_math.specs.LinearForm.{LinearForm};
ghost use Rattle.lie_systems.specs.Bulk.{IsFormWithinLimits};
ghost use Rattle.lie_lin.specs.Systems.{unknown_of};
ghost use Rattle.lie_cross.specs.Isolate.{IsEarliest, IsEarliestPart, IsFirstSingle, IsSingle};

use crate::dependence::inner_variables;
use lie_bytes::NoMemory;
use lie_lin::{LinEq, Unknown, compare_equations};
use lie_parts::{buckets_of, sum_of};
use std::alloc::Global;
use std::cmp::Ordering;

/// Of the parts of a form by the variables on which none of its unknowns depends, the first with one derivative, if there is one.
pub fn first_single_part(
    alloc: Global,
    form: &LinEq,
    unknowns: &[Unknown],
) -> Result<Option<LinEq>, NoMemory>
    requires { IsFormWithinLimits form.now }
    ensures { IfOk result (IsEarliestPart (map unknown_of unknowns.now) form.now) }
{
    let buckets = buckets_of(alloc, &inner_variables(form, unknowns), form.terms())?;
    let mut first = None;
    for bucket in buckets.as_slice() {
        let part = sum_of(alloc, bucket.triples.as_slice())?;
        first = earlier_single(alloc, first, part)?;
    }
    Ok(first)
}

/// The earlier of two forms with one derivative; a form that has more, or none, does not count.
fn earlier_single(
    alloc: Global,
    first: Option<LinEq>,
    next: LinEq,
) -> Result<Option<LinEq>, NoMemory>
    ensures { (Ps : List LinearForm) → IsEarliest Ps first → IfOk result (IsEarliest (Ps ++ next ∷ [])) }
{
    if next.terms().len() != 1 {
        return Ok(first);
    }
    match first {
        None => Ok(Some(next)),
        Some(first) => earlier(alloc, first, next),
    }
}

/// The earlier of two forms in the order of equations.
fn earlier(alloc: Global, first: LinEq, next: LinEq) -> Result<Option<LinEq>, NoMemory>
    ensures { (Ps : List LinearForm) → IsFirstSingle Ps first → IsSingle next → IfOk result (IsEarliest (Ps ++ next ∷ [])) }
{
    match compare_equations(alloc, &next, &first)? {
        Ordering::Less => Ok(Some(next)),
        Ordering::Equal => Ok(Some(first)),
        Ordering::Greater => Ok(Some(first)),
    }
}
