// The rule for the derivative of an equation by a variable on which its lead does not depend.
ghost use Rattle.std.specs.Prelude.{◌≡◌, ℕ, ◌+◌, ◌<◌, length, MatchOption, IfOk, IfErr, OnOk, OnErr};
ghost use Rattle.lie_systems.specs.Leads.{IsLead};
ghost use Rattle.lie_systems.specs.Works.{IsWorkWithin};
ghost use Rattle.lie_jet.specs.Derivatives.{derivative_of};
ghost use Rattle.lie_steps.specs.Derivatives.{derivative};
ghost use Rattle.lie_steps.specs.Equations.{equation};
ghost use Rattle.lie_steps.specs.Foreign.{IsForeignBy, IsForeignAt, AppliesForeign, ForeignTries};
ghost use Rattle.lie_steps.specs.NormalForm.{IsNormalForm};
ghost use Rattle.lie_steps.specs.Rules.{Foreign, Tries};
ghost use Rattle.lie_tables.specs.Tables.{Follows, IsIndexOf};
ghost use Rattle.lie_normal.specs.WorkCauses.{IsWorkCause};
ghost use Rattle.lie_change.specs.Tested.{IsTested};
ghost use Rattle.lie_change.specs.Tried.{at, TryMakes, IsTried};
ghost use Rattle.lie_cross.specs.Foreign.{DerivativeMakes, VariableTries};

use crate::normal::{normal_form_by, system_is_valid, unless_empty, variable_count};
use lie_change::add_form;
use lie_jet::Der;
use lie_lin::{LinEq, LinSystem, lead};
use lie_normal::{depends, derive};
use lie_ring::PolyFail;
use lie_tables::Tables;
use std::alloc::Global;

/// Tries the rule foreign at a place: the equation there is derived by the variables on which its lead does not depend, and the
/// first normal form of these that is not empty is a new equation. The answer says whether there is one; where there is none,
/// nothing changes.
///
/// `Past` comes exactly where an action of the test or of the step is past a limit. After an error the system is as it was.
pub fn try_foreign(system: &mut LinSystem, alloc: Global, place: usize) -> Result<bool, PolyFail>
    requires { place < length system.old.system.equations }
    ensures tried { IfOk result (IsTried Foreign (at place) system.old system.new) }
    ensures fits { OnOk result (IsWorkWithin (TryMakes Foreign system.old.system (at place))) }
    ensures past { IfErr result (λ fail. IsWorkCause fail (TryMakes Foreign system.old.system (at place))) }
    ensures kept { OnErr result (system.new ≡ system.old) }
{
    let mut tables = Tables::none(alloc);
    try_foreign_with(system, &mut tables, alloc, place)
}

/// The same, and tables of the equations, where they are kept, follow the system.
pub fn try_foreign_with(
    system: &mut LinSystem,
    tables: &mut Tables,
    alloc: Global,
    place: usize,
) -> Result<bool, PolyFail>
    requires place { place < length system.old.system.equations }
    requires indexed { IsIndexOf tables.old system.old.system.equations }
    ensures tried { IfOk result (IsTried Foreign (at place) system.old system.new) }
    ensures fits { OnOk result (IsWorkWithin (TryMakes Foreign system.old.system (at place))) }
    ensures past { IfErr result (λ fail. IsWorkCause fail (TryMakes Foreign system.old.system (at place))) }
    ensures kept { OnErr result (system.new ≡ system.old) }
    ensures indexed { Follows tables.old tables.new system.new.system.equations }
{
    system_is_valid(system);
    match foreign_form(system, alloc, place)? {
        Some(form) => {
            add_form(system, tables, alloc, &form)?;
            Ok(true)
        }
        None => Ok(false),
    }
}

/// Whether foreign applies at a place.
///
/// `Past` comes exactly where an action of the test is past a limit.
pub fn foreign_applies(system: &LinSystem, alloc: Global, place: usize) -> Result<bool, PolyFail>
    requires { place < length system.now.system.equations }
    ensures tested { IfOk result (IsTested Foreign (at place) system.now.system) }
    ensures fits { OnOk result (IsWorkWithin (Tries Foreign system.now.system (at place))) }
    ensures past { IfErr result (λ fail. IsWorkCause fail (Tries Foreign system.now.system (at place))) }
{
    let found = foreign_form(system, alloc, place)?;
    Ok(found.is_some())
}

/// The normal form that foreign finds for the equation at a place, if the rule applies.
fn foreign_form(system: &LinSystem, alloc: Global, place: usize) -> Result<Option<LinEq>, PolyFail>
    requires { place < length system.now.system.equations }
    ensures found { IfOk result (λ found. MatchOption found (¬ (AppliesForeign system.now.system place))
        (λ form. (v : ℕ) × IsForeignAt system.now.system place v form)) }
    ensures fits { OnOk result (IsWorkWithin (ForeignTries system.now.system place)) }
    ensures past { IfErr result (λ fail. IsWorkCause fail (ForeignTries system.now.system place)) }
{
    match lead(&system.equations()[place]) {
        Some(lead) => first_form(system, alloc, place, &lead),
        None => Ok(None),
    }
}

/// The first normal form that is not empty, by the variables of the space in their order.
fn first_form(
    system: &LinSystem,
    alloc: Global,
    place: usize,
    lead: &Der,
) -> Result<Option<LinEq>, PolyFail>
    requires place { place < length system.now.system.equations }
    requires leads { IsLead (derivative_of lead.now) (equation system.now.system place) }
    ensures found { IfOk result (λ found. MatchOption found (¬ (AppliesForeign system.now.system place))
        (λ form. (v : ℕ) × IsForeignAt system.now.system place v form)) }
    ensures fits { OnOk result (IsWorkWithin (ForeignTries system.now.system place)) }
    ensures past { IfErr result (λ fail. IsWorkCause fail (ForeignTries system.now.system place)) }
{
    system_is_valid(system);
    for var in 0..variable_count(system) {
        if let Some(form) = form_by(system, alloc, place, lead, var)? {
            return Ok(Some(form));
        }
    }
    Ok(None)
}

/// The normal form of the derivative by one variable, if the lead's unknown does not depend on it and the form is not empty.
fn form_by(
    system: &LinSystem,
    alloc: Global,
    place: usize,
    lead: &Der,
    var: u8,
) -> Result<Option<LinEq>, PolyFail>
    requires place { place < length system.now.system.equations }
    requires leads { IsLead (derivative_of lead.now) (equation system.now.system place) }
    requires within { var < 8 }
    ensures found { IfOk result (λ found. MatchOption found (¬ ((N : _) × IsForeignBy system.now.system place var N))
        (IsForeignBy system.now.system place var)) }
    ensures fits { OnOk result (IsWorkWithin (VariableTries system.now.system place var)) }
    ensures past { IfErr result (λ fail. IsWorkCause fail (VariableTries system.now.system place var)) }
{
    system_is_valid(system);
    if depends(system.unknowns(), lead.unknown, var) {
        return Ok(None);
    }
    let form = normal_derivative(system, alloc, place, var)?;
    Ok(unless_empty(form))
}

/// The normal form of the derivative of the equation at a place by a variable.
fn normal_derivative(
    system: &LinSystem,
    alloc: Global,
    place: usize,
    var: u8,
) -> Result<LinEq, PolyFail>
    requires place { place < length system.now.system.equations }
    requires within { var < 8 }
    ensures normal { IfOk result (IsNormalForm system.now.system.unknowns system.now.system.equations
        (derivative system.now.system.unknowns var (equation system.now.system place))) }
    ensures fits { OnOk result (IsWorkWithin (DerivativeMakes system.now.system place var)) }
    ensures past { IfErr result (λ fail. IsWorkCause fail (DerivativeMakes system.now.system place var)) }
{
    system_is_valid(system);
    let derived = derive(alloc, &system.equations()[place], system.unknowns(), var)?;
    normal_form_by(system, alloc, derived)
}
