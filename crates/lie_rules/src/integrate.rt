// The rule for an equation solved for a derivative by one variable.
ghost use Rattle.std.specs.Prelude.{◌≡◌, ◌+◌, ◌<◌, ◌^◌, ◌⊎◌, ℕ, length, map, pos, unsigned_abs, MatchOption, IfOk, IfErr};
ghost use Rattle.std.specs.Prelude.{OnOk, OnErr};
ghost use Rattle.std.specs.List.{AllByRecursion as Every, Contains};
ghost use Rattle.lie_math.specs.FiniteSum as finite;
ghost use Rattle.lie_math.specs.LinearForm.{forms, ◌+ᶠ◌};
ghost use Rattle.lie_math.specs.Polynomial.{0ᴾ};
ghost use Rattle.lie_math.specs.Limits.{number_limit};
ghost use Rattle.lie_math.specs.Counts.{Derivative};
ghost use Rattle.lie_systems.specs.Bulk.{IsFormWithinLimits};
ghost use Rattle.lie_systems.specs.Works.{IsWorkWithin};
ghost use Rattle.lie_jet.specs.Derivatives.{derivative_of};
ghost use Rattle.lie_form.specs.FormLimits.{IsFormCause};
ghost use Rattle.lie_lin.specs.Systems.{unknown_of};
ghost use Rattle.lie_tables.specs.Tables.{Follows, IsIndexOf};
ghost use Rattle.lie_normal.specs.WorkCauses.{IsWorkCause};
ghost use Rattle.lie_steps.specs.Bulks.{absolute_form};
ghost use Rattle.lie_steps.specs.Equations.{IsGreatest};
ghost use Rattle.lie_steps.specs.Integrate.{counts_of, IsIntegrable, AppliesIntegrate, AfterIntegrate};
ghost use Rattle.lie_steps.specs.Rules.{Integrate};
ghost use Rattle.lie_change.specs.Tested.{IsTested};
ghost use Rattle.lie_change.specs.Tried.{at, IsTried, TryMakes};
ghost use Rattle.lie_rules.specs.Solutions.{IsFormIn};
ghost use Rattle.lie_rules.specs.IntegrableForms.{IsIntegrableAs, IsIntegration, IsIntegral, IsIntegralCause};

use crate::equations::equation_at;
use crate::fresh::{Power, fresh_sum, fresh_unknowns, push_powers};
use crate::known::system_is_valid;
use crate::solved::solved_for;
use crate::split::is_independent;
use crate::unknowns::unknown_with;
use lie_bytes::NoMemory;
use lie_change::eliminate_divided;
use lie_integral::{Integration, integral_of, least_denominator};
use lie_jet::{Der, order_of_derivative, space_is_small};
use lie_lin::{LinEq, LinSystem, Unknown, triples};
use lie_normal::{Coefficient, sum_of_multiples};
use lie_ring::{PastKind, PolyFail, Ring, Whole, constant_polynomial};
use lie_tables::Tables;
use std::alloc::Global;

/// A form that can be integrated: it is solved for a derivative by one variable, and no unknown of the rest, which is not empty,
/// depends on the variable.
#[derive(Drop)]
pub struct Integrable {
    /// The derivative.
    pub der: Der,
    /// The rest.
    pub rest: LinEq,
    /// How the rest is integrated.
    pub integration: Integration,
}

/// Tries the rule for an equation that is a number times a derivative of an unknown by one variable alone plus a rest without the
/// unknown that is not empty, of which no unknown depends on the variable, and in which no variable occurs on which the unknown does
/// not depend. For the greatest such derivative the unknown is replaced by the integral of the rest over minus the number, plus the
/// powers of the variable below the order, each times a fresh unknown without the variable, and it goes with the equation. True where
/// that was done, and false where the equation is another.
///
/// `Past` comes exactly where a number of a fresh unknown, what is put in, the number by which it is divided, a replaced form, or what
/// is left, is past a limit. After an error the system is as it was.
pub fn try_integrate(system: &mut LinSystem, alloc: Global, place: usize) -> Result<bool, PolyFail>
    requires { place < length system.old.system.equations }
    ensures tried { IfOk result (IsTried Integrate (at place) system.old system.new) }
    ensures fits { OnOk result (IsWorkWithin (TryMakes Integrate system.old.system (at place))) }
    ensures past { IfErr result (λ fail. IsWorkCause fail (TryMakes Integrate system.old.system (at place))) }
    ensures kept { OnErr result (system.new ≡ system.old) }
{
    let mut tables = Tables::none(alloc);
    try_integrate_with(system, &mut tables, alloc, place)
}

/// The same, and tables of the equations, where they are kept, follow the system.
pub fn try_integrate_with(
    system: &mut LinSystem,
    tables: &mut Tables,
    alloc: Global,
    place: usize,
) -> Result<bool, PolyFail>
    requires place { place < length system.old.system.equations }
    requires indexed { IsIndexOf tables.old system.old.system.equations }
    ensures tried { IfOk result (IsTried Integrate (at place) system.old system.new) }
    ensures fits { OnOk result (IsWorkWithin (TryMakes Integrate system.old.system (at place))) }
    ensures past { IfErr result (λ fail. IsWorkCause fail (TryMakes Integrate system.old.system (at place))) }
    ensures kept { OnErr result (system.new ≡ system.old) }
    ensures indexed { Follows tables.old tables.new system.new.system.equations }
{
    match integrable_at(system, alloc, place)? {
        None => Ok(false),
        Some(found) => {
            integrate(system, tables, alloc, place, &found)?;
            Ok(true)
        }
    }
}

/// Whether the rule for an equation solved for a derivative applies at a place.
pub fn integrate_applies(system: &LinSystem, alloc: Global, place: usize) -> Result<bool, NoMemory>
    requires { place < length system.now.system.equations }
    ensures { IfOk result (IsTested Integrate (at place) system.now.system) }
{
    let found = integrable_at(system, alloc, place)?;
    Ok(found.is_some())
}

/// The equation at a place, solved for the greatest derivative for which it can be integrated.
fn integrable_at(
    system: &LinSystem,
    alloc: Global,
    place: usize,
) -> Result<Option<Integrable>, NoMemory>
    requires { place < length system.now.system.equations }
    ensures { IfOk result (λ found. MatchOption found (¬ (AppliesIntegrate system.now.system place))
        (IsIntegration system.now.system place)) }
{
    system_is_valid(system);
    space_is_small(system.space());
    integrable_for_greatest(alloc, equation_at(system, place), system.unknowns())
}

/// The form solved for the greatest derivative for which it can be integrated.
fn integrable_for_greatest(
    alloc: Global,
    eq: &LinEq,
    unknowns: &[Unknown],
) -> Result<Option<Integrable>, NoMemory>
    requires { IsFormIn (map unknown_of unknowns.now) eq.now }
    ensures { IfOk result (λ found. MatchOption found
        ((d : Derivative) → ¬ (IsIntegrable (map unknown_of unknowns.now) eq.now d))
        (λ s. IsIntegrableAs (map unknown_of unknowns.now) eq.now s
        × IsGreatest (IsIntegrable (map unknown_of unknowns.now) eq.now) (derivative_of s.der))) }
{
    for term in eq.terms() {
        if let Some(found) = integrable_for(alloc, eq, unknowns, term)? {
            return Ok(Some(found));
        }
    }
    Ok(None)
}

/// The form solved for a derivative with its coefficient; None exactly where it cannot be integrated for it.
fn integrable_for(
    alloc: Global,
    eq: &LinEq,
    unknowns: &[Unknown],
    term: &(Der, Coefficient),
) -> Result<Option<Integrable>, NoMemory>
    requires form { IsFormIn (map unknown_of unknowns.now) eq.now }
    requires coefficient { finite.value forms eq.now (derivative_of term.now.0) ≡ term.now.1 }
    ensures { IfOk result (λ found. MatchOption found
        (¬ (IsIntegrable (map unknown_of unknowns.now) eq.now (derivative_of term.now.0)))
        (λ s. (s.der ≡ term.now.0) × IsIntegrableAs (map unknown_of unknowns.now) eq.now s)) }
{
    match only_variable(&term.0) {
        None => Ok(None),
        Some((var, times)) => match solved_for(alloc, eq, unknowns, term)? {
            None => Ok(None),
            Some(solved) => {
                if solved.rest.terms().len() == 0 {
                    return Ok(None);
                }
                if !is_independent(unknowns, &solved.rest, var) {
                    return Ok(None);
                }
                Ok(Some(Integrable {
                    der: solved.der,
                    rest: solved.rest,
                    integration: Integration {
                        number: solved.number,
                        var,
                        times,
                    },
                }))
            }
        },
    }
}

/// The variable by which alone a derivative derives, and how often; None exactly where there are several, or none.
fn only_variable(der: &Der) -> Option<(u8, u8)>
    ensures { MatchOption result ((v k : ℕ) → 0 < k → ¬ ((derivative_of der.now).counts ≡ counts_of v k))
        (λ found. (found.0 < 8) × (0 < found.1) × ((derivative_of der.now).counts ≡ counts_of found.0 found.1)) }
{
    for var in 0..8u8 {
        let count = der.counts[usize::from(var)];
        if count != 0 {
            if order_of_derivative(der) != u32::from(count) {
                return None;
            }
            return Some((var, count));
        }
    }
    None
}

/// Replaces the unknown for a derivative of which the equation at a place can be integrated.
fn integrate(
    system: &mut LinSystem,
    tables: &mut Tables,
    alloc: Global,
    place: usize,
    found: &Integrable,
) -> Result<(), PolyFail>
    requires is { IsIntegration system.old.system place found.now }
    requires indexed { IsIndexOf tables.old system.old.system.equations }
    ensures after { OnOk result (AfterIntegrate system.old.system place system.new.system) }
    ensures space { system.new.space ≡ system.old.space }
    ensures fits { OnOk result (IsWorkWithin (TryMakes Integrate system.old.system (at place))) }
    ensures past { IfErr result (λ fail. IsWorkCause fail (TryMakes Integrate system.old.system (at place))) }
    ensures kept { OnErr result (system.new ≡ system.old) }
    ensures indexed { Follows tables.old tables.new system.new.system.equations }
{
    system_is_valid(system);
    match unknown_with(system.unknowns(), found.der.unknown) {
        Some(unknown) => integrate_unknown(system, tables, alloc, place, found, &unknown),
        None => unreachable!(),
    }
}

/// Replaces the unknown, for a derivative of which the equation at a place can be integrated.
fn integrate_unknown(
    system: &mut LinSystem,
    tables: &mut Tables,
    alloc: Global,
    place: usize,
    found: &Integrable,
    unknown: &Unknown,
) -> Result<(), PolyFail>
    requires integration { IsIntegration system.old.system place found.now }
    requires listed { Contains system.old.system.unknowns (unknown_of unknown.now) }
    requires number { unknown.now.number ≡ found.now.der.unknown }
    requires indexed { IsIndexOf tables.old system.old.system.equations }
    ensures after { OnOk result (AfterIntegrate system.old.system place system.new.system) }
    ensures space { system.new.space ≡ system.old.space }
    ensures fits { OnOk result (IsWorkWithin (TryMakes Integrate system.old.system (at place))) }
    ensures past { IfErr result (λ fail. IsWorkCause fail (TryMakes Integrate system.old.system (at place))) }
    ensures kept { OnErr result (system.new ≡ system.old) }
    ensures indexed { Follows tables.old tables.new system.new.system.equations }
{
    system_is_valid(system);
    let next = system.next();
    let mut powers = Vec::new(alloc);
    push_powers(&mut powers, found.integration.var, found.integration.times)?;
    let fresh = fresh_unknowns(alloc, next, unknown, powers.as_slice())?;
    let (form, divisor) = solution(alloc, found, next, powers.as_slice())?;
    let number = unknown.number;
    eliminate_divided(
        system,
        tables,
        alloc,
        place,
        number,
        &form,
        divisor,
        fresh.as_slice(),
    )
}

/// What an unknown is over a number, and the number: the integral of the rest, times the least number that makes it whole, plus powers
/// times fresh unknowns, whose numbers go on from `next`.
///
/// `Past` comes exactly where the form or the number is past a limit.
fn solution(
    alloc: Global,
    found: &Integrable,
    next: u32,
    powers: &[Power],
) -> Result<(LinEq, Whole), PolyFail>
    requires apart { ¬ (found.now.integration.number ≡ pos 0) }
    requires numbers { next + length powers.now < 2 ^ 32 }
    requires older { Every (λ e. (e.0).unknown < next) found.now.rest.list }
    ensures solution { IfOk result (λ made. IsIntegral found.now next powers.now made.0 made.1) }
    ensures fits { IfOk result (λ made. IsFormWithinLimits (absolute_form made.0) × (unsigned_abs made.1 < number_limit)) }
    ensures past { IfErr result (λ fail. IsIntegralCause fail found.now next powers.now) }
{
    let list = triples(alloc, &found.rest)?;
    let divisor = match least_denominator(&found.integration, list.as_slice()) {
        Some(divisor) => divisor,
        None => return Err(PolyFail::Past(PastKind::Coefficient)),
    };
    divisor.fits();
    let integral = integral_of(alloc, &found.integration, divisor, &found.rest)?;
    let powers = fresh_sum(alloc, next, powers)?;
    let form = sum_of(alloc, &integral, &powers)?;
    Ok((form, divisor))
}

/// The sum of two forms that have no derivative in common.
///
/// `Past` comes exactly where it is past a limit.
fn sum_of(alloc: Global, form: &LinEq, other: &LinEq) -> Result<LinEq, PolyFail>
    requires { (d : Derivative) → (finite.value forms form.now d ≡ 0ᴾ) ⊎ (finite.value forms other.now d ≡ 0ᴾ) }
    ensures sum { IfOk result (λ made. made ≡ form.now +ᶠ other.now) }
    ensures fits { OnOk result (IsFormWithinLimits (absolute_form (form.now +ᶠ other.now))) }
    ensures past { IfErr result (λ fail. IsFormCause fail (absolute_form (form.now +ᶠ other.now))) }
{
    let one = constant_polynomial(alloc, Whole::one())?;
    sum_of_multiples(alloc, &one, form, &one, other)
}
