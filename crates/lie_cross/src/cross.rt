// The rule that derives two equations until their leads are the same, and combines them.
ghost use Rattle.std.specs.Prelude.{◌≡◌, ◌+◌, ◌<◌, length, MatchOption, IfOk, IfErr, OnOk, OnErr};
ghost use Rattle.std.specs.List.{Contains};
ghost use Rattle.lie_systems.specs.Works.{IsWorkWithin};
ghost use Rattle.lie_jet.specs.Derivatives.{derivative_of};
ghost use Rattle.lie_steps.specs.Cross.{least_multiple, crossed, crossed_made, IsCrossedAt, AppliesCross, CrossTries};
ghost use Rattle.lie_steps.specs.Equations.{equation};
ghost use Rattle.lie_steps.specs.Rules.{Cross, Tries};
ghost use Rattle.lie_tables.specs.Tables.{Follows, IsIndexOf};
ghost use Rattle.lie_normal.specs.WorkCauses.{IsWorkCause};
ghost use Rattle.lie_change.specs.Tested.{IsTested};
ghost use Rattle.lie_change.specs.Tried.{TryMakes, IsTried};
ghost use Rattle.lie_cross.specs.Cross.{AreLeadsOfOne};

use crate::normal::{normal_form_by, system_is_valid, unless_empty};
use lie_change::add_form;
use lie_jet::Der;
use lie_lin::{LinEq, LinSystem, lead};
use lie_normal::{combine, derived_between};
use lie_ring::PolyFail;
use lie_tables::Tables;
use std::alloc::Global;

/// Tries the rule cross at two places, the first below the second: where the leads of the equations there are of one unknown, both
/// are derived until their leads are the least common multiple of these, and combined; the normal form of this, unless it is empty,
/// is a new equation. The answer says whether there is one; where there is none, nothing changes. Where the leads are of two
/// unknowns no memory is taken.
///
/// `Past` comes exactly where an action of the test or of the step is past a limit. After an error the system is as it was.
pub fn try_cross(
    system: &mut LinSystem,
    alloc: Global,
    first: usize,
    second: usize,
) -> Result<bool, PolyFail>
    requires order { first < second }
    requires place { second < length system.old.system.equations }
    ensures tried { IfOk result (IsTried Cross (record { first = first; second = second }) system.old system.new) }
    ensures fits { OnOk result (IsWorkWithin (TryMakes Cross system.old.system (record { first = first; second = second }))) }
    ensures past { IfErr result (λ fail. IsWorkCause fail
        (TryMakes Cross system.old.system (record { first = first; second = second }))) }
    ensures kept { OnErr result (system.new ≡ system.old) }
{
    let mut tables = Tables::none(alloc);
    try_cross_with(system, &mut tables, alloc, first, second)
}

/// The same, and tables of the equations, where they are kept, follow the system.
pub fn try_cross_with(
    system: &mut LinSystem,
    tables: &mut Tables,
    alloc: Global,
    first: usize,
    second: usize,
) -> Result<bool, PolyFail>
    requires order { first < second }
    requires place { second < length system.old.system.equations }
    requires indexed { IsIndexOf tables.old system.old.system.equations }
    ensures tried { IfOk result (IsTried Cross (record { first = first; second = second }) system.old system.new) }
    ensures fits { OnOk result (IsWorkWithin (TryMakes Cross system.old.system (record { first = first; second = second }))) }
    ensures past { IfErr result (λ fail. IsWorkCause fail
        (TryMakes Cross system.old.system (record { first = first; second = second }))) }
    ensures kept { OnErr result (system.new ≡ system.old) }
    ensures indexed { Follows tables.old tables.new system.new.system.equations }
{
    system_is_valid(system);
    match crossed_form(system, alloc, first, second)? {
        Some(form) => {
            add_form(system, tables, alloc, &form)?;
            Ok(true)
        }
        None => Ok(false),
    }
}

/// Whether cross applies at two places, the first below the second.
///
/// `Past` comes exactly where an action of the test is past a limit.
pub fn cross_applies(
    system: &LinSystem,
    alloc: Global,
    first: usize,
    second: usize,
) -> Result<bool, PolyFail>
    requires order { first < second }
    requires place { second < length system.now.system.equations }
    ensures tested { IfOk result (IsTested Cross (record { first = first; second = second }) system.now.system) }
    ensures fits { OnOk result (IsWorkWithin (Tries Cross system.now.system (record { first = first; second = second }))) }
    ensures past { IfErr result (λ fail. IsWorkCause fail
        (Tries Cross system.now.system (record { first = first; second = second }))) }
{
    let found = crossed_form(system, alloc, first, second)?;
    Ok(found.is_some())
}

/// The normal form that cross finds for the equations at two places, if the rule applies.
fn crossed_form(
    system: &LinSystem,
    alloc: Global,
    first: usize,
    second: usize,
) -> Result<Option<LinEq>, PolyFail>
    requires order { first < second }
    requires place { second < length system.now.system.equations }
    ensures found { IfOk result (λ found. MatchOption found (¬ (AppliesCross system.now.system first second))
        (IsCrossedAt system.now.system first second)) }
    ensures fits { OnOk result (IsWorkWithin (CrossTries system.now.system first second)) }
    ensures past { IfErr result (λ fail. IsWorkCause fail (CrossTries system.now.system first second)) }
{
    let equations = system.equations();
    match leads_of_one(&equations[first], &equations[second]) {
        Some((lead, other)) => { crossed_by(system, alloc, first, second, &lead, &other) }
        None => Ok(None),
    }
}

/// The normal form of the combination of the equations at two places with these leads, which are of one unknown, unless it is empty.
fn crossed_by(
    system: &LinSystem,
    alloc: Global,
    first: usize,
    second: usize,
    lead: &Der,
    other: &Der,
) -> Result<Option<LinEq>, PolyFail>
    requires order { first < second }
    requires place { second < length system.now.system.equations }
    requires leads { AreLeadsOfOne (equation system.now.system first) (equation system.now.system second)
        (derivative_of lead.now) (derivative_of other.now) }
    ensures found { IfOk result (λ found. MatchOption found (¬ (AppliesCross system.now.system first second))
        (IsCrossedAt system.now.system first second)) }
    ensures fits { OnOk result (IsWorkWithin (CrossTries system.now.system first second)) }
    ensures past { IfErr result (λ fail. IsWorkCause fail (CrossTries system.now.system first second)) }
{
    system_is_valid(system);
    let combined = combination(system, alloc, first, second, lead, other)?;
    let form = normal_form_by(system, alloc, combined)?;
    Ok(unless_empty(form))
}

/// The leads of two equations, if they are of one unknown.
fn leads_of_one(equation: &LinEq, other: &LinEq) -> Option<(Der, Der)>
    ensures { MatchOption result ((l m : _) → ¬ (AreLeadsOfOne equation.now other.now l m))
        (λ pair. AreLeadsOfOne equation.now other.now (derivative_of pair.0) (derivative_of pair.1)) }
{
    match (lead(equation), lead(other)) {
        (Some(lead), Some(other)) if lead.unknown == other.unknown => Some((lead, other)),
        _ => None,
    }
}

/// The equations at two places derived until their leads are the same, and combined.
///
/// `Past` comes exactly where one of the derivatives or the combination is past a limit by its bulk.
fn combination(
    system: &LinSystem,
    alloc: Global,
    first: usize,
    second: usize,
    lead: &Der,
    other: &Der,
) -> Result<LinEq, PolyFail>
    requires order { first < second }
    requires place { second < length system.now.system.equations }
    ensures combined { IfOk result (λ made. made ≡ crossed system.now.system first second (derivative_of lead.now)
        (derivative_of other.now)) }
    ensures fits { OnOk result (IsWorkWithin (Contains (crossed_made system.now.system first second (derivative_of lead.now)
        (derivative_of other.now)))) }
    ensures past { IfErr result (λ fail. IsWorkCause fail (Contains (crossed_made system.now.system first second
        (derivative_of lead.now) (derivative_of other.now)))) }
{
    let equations = system.equations();
    let unknowns = system.unknowns();
    let common = common_multiple(lead, other);
    let left = derived_between(alloc, &equations[first], unknowns, lead, &common)?;
    let right = derived_between(alloc, &equations[second], unknowns, other, &common)?;
    combine(alloc, &common, &left, &right)
}

/// The least common multiple of two derivatives of one unknown.
fn common_multiple(left: &Der, right: &Der) -> Der
    ensures { derivative_of result ≡ least_multiple (derivative_of left.now) (derivative_of right.now) }
{
    let mut common = *left;
    for i in 0..8 {
        common.counts[i] = left.counts[i].max(right.counts[i]);
    }
    common
}
