// The parts of a system in which an unknown is replaced: its unknowns, its equations and its general forms.
ghost use Rattle.std.specs.Prelude.{◌≡◌, ◌<◌, ◌++◌, ◌∷◌, [], true, pos, unsigned_abs, length, map, remove, filter, IfOk, IfErr, OnOk};
ghost use Rattle.std.specs.List.{Contains, list_any};
ghost use Rattle.lie_systems.specs.Works.{IsWorkWithin};
ghost use Rattle.lie_lin.specs.Systems.{unknown_of};
ghost use Rattle.lie_steps.specs.Equations.{mentions};
ghost use Rattle.lie_steps.specs.Replacement.{without, put_in, replaced_made, all_replaced_made};
ghost use Rattle.lie_normal.specs.WorkCauses.{IsWorkCause};
ghost use Rattle.lie_change.specs.Lists.{general_after};

use crate::dividing::without_divisor;
use crate::mentioning::mentions;
use lie_bytes::NoMemory;
use lie_lin::{LinEq, Unknown};
use lie_replace::{replace, replace_in_all};
use lie_ring::{PolyFail, Whole};
use std::alloc::Global;

/// Puts an unknown behind others, unless it has the number.
fn push_other(unknowns: &mut Vec<Unknown>, unknown: &Unknown, number: u32) -> Result<(), NoMemory>
    ensures { OnOk result (map unknown_of unknowns.new.items ≡ map unknown_of unknowns.old.items
        ++ without number (unknown_of unknown.now ∷ [])) }
{
    if unknown.number == number {
        return Ok(());
    }
    unknowns.push(*unknown)?;
    Ok(())
}

/// The unknowns without the one with a number, and the fresh ones behind them.
pub fn unknowns_after(
    alloc: Global,
    unknowns: &[Unknown],
    number: u32,
    fresh: &[Unknown],
) -> Result<Vec<Unknown>, NoMemory>
    ensures { IfOk result (λ after. map unknown_of after.items
        ≡ without number (map unknown_of unknowns.now) ++ map unknown_of fresh.now) }
{
    let mut after = Vec::new(alloc);
    for unknown in unknowns {
        push_other(&mut after, unknown, number)?;
    }
    for unknown in fresh {
        after.push(*unknown)?;
    }
    Ok(after)
}

/// Puts an equation with a form over a whole number in place of an unknown behind others, where it has the unknown.
fn push_replaced(
    out: &mut Vec<LinEq>,
    alloc: Global,
    eq: &LinEq,
    unknowns: &[Unknown],
    number: u32,
    form: &LinEq,
    divisor: Whole,
) -> Result<(), PolyFail>
    requires { divisor ≡ pos (unsigned_abs divisor) }
    ensures put { OnOk result (out.new.items ≡ out.old.items ++ map (put_in (map unknown_of unknowns.now) number form.now
        (unsigned_abs divisor)) (filter (mentions number) (eq.now ∷ []))) }
    ensures fits { OnOk result (IsWorkWithin (Contains (replaced_made (map unknown_of unknowns.now) number form.now
        (unsigned_abs divisor) (eq.now ∷ [])))) }
    ensures past { IfErr result (λ fail. IsWorkCause fail (Contains (replaced_made (map unknown_of unknowns.now) number form.now
        (unsigned_abs divisor) (eq.now ∷ [])))) }
{
    if mentions(eq, number) {
        out.push(replace(alloc, eq, unknowns, number, form, divisor)?)?;
    }
    Ok(())
}

/// Puts the equations that have an unknown, with a form over a whole number in its place, behind others.
fn push_all_replaced(
    out: &mut Vec<LinEq>,
    alloc: Global,
    equations: &[LinEq],
    unknowns: &[Unknown],
    number: u32,
    form: &LinEq,
    divisor: Whole,
) -> Result<(), PolyFail>
    requires { divisor ≡ pos (unsigned_abs divisor) }
    ensures put { OnOk result (out.new.items ≡ out.old.items ++ map (put_in (map unknown_of unknowns.now) number form.now
        (unsigned_abs divisor)) (filter (mentions number) equations.now)) }
    ensures fits { OnOk result (IsWorkWithin (Contains (replaced_made (map unknown_of unknowns.now) number form.now
        (unsigned_abs divisor) equations.now))) }
    ensures past { IfErr result (λ fail. IsWorkCause fail (Contains (replaced_made (map unknown_of unknowns.now) number form.now
        (unsigned_abs divisor) equations.now))) }
{
    for eq in equations {
        push_replaced(out, alloc, eq, unknowns, number, form, divisor)?;
    }
    Ok(())
}

/// The equations that have an unknown, but for the one at a place, with a form over a whole number in its place.
pub fn replaced_equations(
    alloc: Global,
    equations: &[LinEq],
    place: usize,
    unknowns: &[Unknown],
    number: u32,
    form: &LinEq,
    divisor: Whole,
) -> Result<Vec<LinEq>, PolyFail>
    requires place { place < length equations.now }
    requires divisor { divisor ≡ pos (unsigned_abs divisor) }
    ensures replaced { IfOk result (λ forms. forms.items ≡ map (put_in (map unknown_of unknowns.now) number form.now
        (unsigned_abs divisor)) (filter (mentions number) (remove equations.now place))) }
    ensures fits { OnOk result (IsWorkWithin (Contains (replaced_made (map unknown_of unknowns.now) number form.now
        (unsigned_abs divisor) (remove equations.now place)))) }
    ensures past { IfErr result (λ fail. IsWorkCause fail (Contains (replaced_made (map unknown_of unknowns.now) number form.now
        (unsigned_abs divisor) (remove equations.now place)))) }
{
    let mut forms = Vec::new(alloc);
    let before = &equations[..place];
    push_all_replaced(&mut forms, alloc, before, unknowns, number, form, divisor)?;
    let behind = &equations[place + 1..];
    push_all_replaced(&mut forms, alloc, behind, unknowns, number, form, divisor)?;
    Ok(forms)
}

/// The general forms, of which one has an unknown, with a form over a whole number in its place, and divided or not.
pub fn replaced_general(
    alloc: Global,
    general: &[LinEq],
    unknowns: &[Unknown],
    number: u32,
    form: &LinEq,
    divisor: Whole,
    divided: bool,
) -> Result<Vec<LinEq>, PolyFail>
    requires some { list_any (mentions number) general.now ≡ true }
    requires divisor { divisor ≡ pos (unsigned_abs divisor) }
    ensures replaced { IfOk result (λ after. after.items
        ≡ general_after divided (map unknown_of unknowns.now) number form.now (unsigned_abs divisor) general.now) }
    ensures fits { OnOk result (IsWorkWithin (Contains (all_replaced_made (map unknown_of unknowns.now) number form.now
        (unsigned_abs divisor) general.now))) }
    ensures past { IfErr result (λ fail. IsWorkCause fail (Contains (all_replaced_made (map unknown_of unknowns.now) number form.now
        (unsigned_abs divisor) general.now))) }
{
    let after = replace_in_all(alloc, general, unknowns, number, form, divisor)?;
    if divided {
        return Ok(without_divisor(alloc, after)?);
    }
    Ok(after)
}
