// The rule for an equation with constant coefficients whose lowest derivative divides the others.
ghost use Rattle.std.specs.Prelude.{◌≡◌, ◌<◌, length, MatchBool, MatchOption, IfOk, IfErr, OnOk, OnErr};
ghost use Rattle.lie_math.specs.Polynomial.{0ᴾ};
ghost use Rattle.lie_systems.specs.Works.{IsWorkWithin};
ghost use Rattle.lie_jet.specs.Derivatives.{derivative_of};
ghost use Rattle.lie_steps.specs.Rules.{Lowest};
ghost use Rattle.lie_steps.specs.Lowest.{IsLowestAt, AppliesLowest, AfterLowest};
ghost use Rattle.lie_tables.specs.Tables.{Follows, IsIndexOf};
ghost use Rattle.lie_normal.specs.WorkCauses.{IsWorkCause};
ghost use Rattle.lie_change.specs.Tested.{IsTested};
ghost use Rattle.lie_change.specs.Tried.{at, IsTried, TryMakes};
ghost use Rattle.lie_rules.specs.LowestTerms.{IsConstant, IsConstantOver};

use crate::equations::equation_at;
use crate::known::system_is_valid;
use lie_bytes::NoMemory;
use lie_change::exchange_forms;
use lie_jet::Der;
use lie_lin::{LinSystem, derivative_alone, form_triple_count};
use lie_normal::{Coefficient, divides};
use lie_ring::{PolyFail, Polynomial};
use lie_tables::Tables;
use std::alloc::Global;

/// Tries the rule for an equation of more than one triple with constant coefficients, in which the lowest derivative divides all
/// others: the equation becomes that derivative `= 0`. True where that was done, and false where the equation is another.
///
/// `Past` comes exactly where what is left is past a limit. After an error the system is as it was.
pub fn try_lowest(system: &mut LinSystem, alloc: Global, place: usize) -> Result<bool, PolyFail>
    requires { place < length system.old.system.equations }
    ensures tried { IfOk result (IsTried Lowest (at place) system.old system.new) }
    ensures fits { OnOk result (IsWorkWithin (TryMakes Lowest system.old.system (at place))) }
    ensures past { IfErr result (λ fail. IsWorkCause fail (TryMakes Lowest system.old.system (at place))) }
    ensures kept { OnErr result (system.new ≡ system.old) }
{
    let mut tables = Tables::none(alloc);
    try_lowest_with(system, &mut tables, alloc, place)
}

/// The same, and tables of the equations, where they are kept, follow the system.
pub fn try_lowest_with(
    system: &mut LinSystem,
    tables: &mut Tables,
    alloc: Global,
    place: usize,
) -> Result<bool, PolyFail>
    requires place { place < length system.old.system.equations }
    requires indexed { IsIndexOf tables.old system.old.system.equations }
    ensures tried { IfOk result (IsTried Lowest (at place) system.old system.new) }
    ensures fits { OnOk result (IsWorkWithin (TryMakes Lowest system.old.system (at place))) }
    ensures past { IfErr result (λ fail. IsWorkCause fail (TryMakes Lowest system.old.system (at place))) }
    ensures kept { OnErr result (system.new ≡ system.old) }
    ensures indexed { Follows tables.old tables.new system.new.system.equations }
{
    match lowest_at(system, alloc, place)? {
        None => Ok(false),
        Some(der) => {
            reduce_to_lowest(system, tables, alloc, place, der)?;
            Ok(true)
        }
    }
}

/// Whether the rule for a lowest derivative applies at a place.
pub fn lowest_applies(system: &LinSystem, alloc: Global, place: usize) -> Result<bool, NoMemory>
    requires { place < length system.now.system.equations }
    ensures { IfOk result (IsTested Lowest (at place) system.now.system) }
{
    let found = lowest_at(system, alloc, place)?;
    Ok(found.is_some())
}

/// The derivative that divides all others of the equation at a place, which has more than one triple and constant coefficients.
fn lowest_at(system: &LinSystem, alloc: Global, place: usize) -> Result<Option<Der>, NoMemory>
    requires { place < length system.now.system.equations }
    ensures { IfOk result (λ found. MatchOption found (¬ (AppliesLowest system.now.system place))
        (λ der. IsLowestAt system.now.system place (derivative_of der))) }
{
    let eq = equation_at(system, place);
    if form_triple_count(eq) < 2 {
        return Ok(None);
    }
    let terms = eq.terms();
    let last = terms[terms.len() - 1].0;
    for term in terms {
        let over = is_constant_over(alloc, &last, term)?;
        if !over {
            return Ok(None);
        }
    }
    Ok(Some(last))
}

/// Whether a derivative divides that of a term, whose coefficient is a number.
fn is_constant_over(alloc: Global, der: &Der, term: &(Der, Coefficient)) -> Result<bool, NoMemory>
    requires { ¬ (term.now.1 ≡ 0ᴾ) }
    ensures { IfOk result (λ yes. MatchBool yes (IsConstantOver (derivative_of der.now) term.now)
        (¬ (IsConstantOver (derivative_of der.now) term.now))) }
{
    if !divides(der, &term.0) {
        return Ok(false);
    }
    is_constant(alloc, &term.1)
}

/// Whether a polynomial, which is not 0, is a number.
fn is_constant(alloc: Global, poly: &Coefficient) -> Result<bool, NoMemory>
    requires { ¬ (poly.now ≡ 0ᴾ) }
    ensures { IfOk result (λ yes. MatchBool yes (IsConstant poly.now) (¬ (IsConstant poly.now))) }
{
    if poly.len() != 1 {
        return Ok(false);
    }
    let terms = poly.terms(alloc)?;
    Ok(terms[0].0.pairs().len() == 0)
}

/// Puts the lowest derivative alone in place of the equation.
fn reduce_to_lowest(
    system: &mut LinSystem,
    tables: &mut Tables,
    alloc: Global,
    place: usize,
    der: Der,
) -> Result<(), PolyFail>
    requires is { IsLowestAt system.old.system place (derivative_of der) }
    requires indexed { IsIndexOf tables.old system.old.system.equations }
    ensures after { OnOk result (AfterLowest system.old.system place system.new.system) }
    ensures space { system.new.space ≡ system.old.space }
    ensures fits { OnOk result (IsWorkWithin (TryMakes Lowest system.old.system (at place))) }
    ensures past { IfErr result (λ fail. IsWorkCause fail (TryMakes Lowest system.old.system (at place))) }
    ensures kept { OnErr result (system.new ≡ system.old) }
    ensures indexed { Follows tables.old tables.new system.new.system.equations }
{
    system_is_valid(system);
    let form = derivative_alone(alloc, der)?;
    exchange_forms(system, tables, alloc, place, &[form])
}
