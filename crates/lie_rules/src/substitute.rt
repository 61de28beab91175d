// The rule for an equation solved for an unknown.
ghost use Rattle.std.specs.Prelude.{◌≡◌, ◌<◌, length, map, pos, neg_ℤ, MatchOption, IfOk, IfErr, OnOk, OnErr};
ghost use Rattle.lie_math.specs.Counts.{Derivative};
ghost use Rattle.lie_math.specs.FiniteSum as finite;
ghost use Rattle.lie_math.specs.LinearForm.{forms, times_form};
ghost use Rattle.lie_math.specs.Polynomial.{constant};
ghost use Rattle.lie_systems.specs.Bulk.{IsFormWithinLimits};
ghost use Rattle.lie_systems.specs.Normalised.{sign};
ghost use Rattle.lie_systems.specs.Works.{IsWorkWithin};
ghost use Rattle.lie_jet.specs.Derivatives.{derivative_of};
ghost use Rattle.lie_form.specs.FormLimits.{IsFormCause};
ghost use Rattle.lie_lin.specs.Systems.{unknown_of};
ghost use Rattle.lie_tables.specs.Tables.{Follows, IsIndexOf};
ghost use Rattle.lie_normal.specs.WorkCauses.{IsWorkCause};
ghost use Rattle.lie_steps.specs.Bulks.{absolute_form};
ghost use Rattle.lie_steps.specs.Equations.{IsGreatest};
ghost use Rattle.lie_steps.specs.Rules.{Substitute};
ghost use Rattle.lie_steps.specs.Substitute.{IsSubstitutable, IsSubstitutedAt, AppliesSubstitute, AfterSubstitute};
ghost use Rattle.lie_change.specs.Tested.{IsTested};
ghost use Rattle.lie_change.specs.Tried.{at, IsTried, TryMakes};
ghost use Rattle.lie_rules.specs.Solutions.{IsFormIn, IsSolved, IsSubstitution};

use crate::equations::equation_at;
use crate::known::system_is_valid;
use crate::solved::{Solved, solved_for};
use lie_bytes::NoMemory;
use lie_change::eliminate_divided;
use lie_jet::{Der, order_of_derivative, space_is_small};
use lie_lin::{LinEq, LinSystem, Unknown};
use lie_normal::{Coefficient, sum_of_multiples};
use lie_ring::{PolyFail, Ring, Whole, constant_polynomial};
use lie_tables::Tables;
use std::alloc::Global;

/// Tries the rule for an equation that is a number times an unknown plus a rest without it, in which no variable occurs on which
/// the unknown does not depend: of all such unknowns the greatest is replaced by the rest over minus the number, and it goes with the
/// equation. True where that was done, and false where the equation is another.
///
/// `Past` comes exactly where what is put in, a replaced form, or what is left, is past a limit. After an error the system is as it
/// was.
pub fn try_substitute(system: &mut LinSystem, alloc: Global, place: usize) -> Result<bool, PolyFail>
    requires { place < length system.old.system.equations }
    ensures tried { IfOk result (IsTried Substitute (at place) system.old system.new) }
    ensures fits { OnOk result (IsWorkWithin (TryMakes Substitute system.old.system (at place))) }
    ensures past { IfErr result (λ fail. IsWorkCause fail (TryMakes Substitute system.old.system (at place))) }
    ensures kept { OnErr result (system.new ≡ system.old) }
{
    let mut tables = Tables::none(alloc);
    try_substitute_with(system, &mut tables, alloc, place)
}

/// The same, and tables of the equations, where they are kept, follow the system.
pub fn try_substitute_with(
    system: &mut LinSystem,
    tables: &mut Tables,
    alloc: Global,
    place: usize,
) -> Result<bool, PolyFail>
    requires place { place < length system.old.system.equations }
    requires indexed { IsIndexOf tables.old system.old.system.equations }
    ensures tried { IfOk result (IsTried Substitute (at place) system.old system.new) }
    ensures fits { OnOk result (IsWorkWithin (TryMakes Substitute system.old.system (at place))) }
    ensures past { IfErr result (λ fail. IsWorkCause fail (TryMakes Substitute system.old.system (at place))) }
    ensures kept { OnErr result (system.new ≡ system.old) }
    ensures indexed { Follows tables.old tables.new system.new.system.equations }
{
    match solved_at(system, alloc, place)? {
        None => Ok(false),
        Some(solved) => {
            substitute(system, tables, alloc, place, &solved)?;
            Ok(true)
        }
    }
}

/// Whether the rule for an equation solved for an unknown applies at a place.
pub fn substitute_applies(system: &LinSystem, alloc: Global, place: usize) -> Result<bool, NoMemory>
    requires { place < length system.now.system.equations }
    ensures { IfOk result (IsTested Substitute (at place) system.now.system) }
{
    let found = solved_at(system, alloc, place)?;
    Ok(found.is_some())
}

/// The equation at a place, solved for the greatest unknown.
fn solved_at(system: &LinSystem, alloc: Global, place: usize) -> Result<Option<Solved>, NoMemory>
    requires { place < length system.now.system.equations }
    ensures { IfOk result (λ found. MatchOption found (¬ (AppliesSubstitute system.now.system place))
        (IsSubstitution system.now.system place)) }
{
    system_is_valid(system);
    space_is_small(system.space());
    solved_for_greatest(alloc, equation_at(system, place), system.unknowns())
}

/// The form solved for the greatest unknown.
fn solved_for_greatest(
    alloc: Global,
    eq: &LinEq,
    unknowns: &[Unknown],
) -> Result<Option<Solved>, NoMemory>
    requires { IsFormIn (map unknown_of unknowns.now) eq.now }
    ensures { IfOk result (λ found. MatchOption found
        ((d : Derivative) → ¬ (IsSubstitutable (map unknown_of unknowns.now) eq.now d))
        (λ s. IsSolved (map unknown_of unknowns.now) eq.now s
        × IsGreatest (IsSubstitutable (map unknown_of unknowns.now) eq.now) (derivative_of s.der))) }
{
    for term in eq.terms() {
        if let Some(solved) = solved_for_unknown(alloc, eq, unknowns, term)? {
            return Ok(Some(solved));
        }
    }
    Ok(None)
}

/// The form solved for an unknown with its coefficient; None exactly where it is not solved for it, or it is a derivative.
fn solved_for_unknown(
    alloc: Global,
    eq: &LinEq,
    unknowns: &[Unknown],
    term: &(Der, Coefficient),
) -> Result<Option<Solved>, NoMemory>
    requires form { IsFormIn (map unknown_of unknowns.now) eq.now }
    requires coefficient { finite.value forms eq.now (derivative_of term.now.0) ≡ term.now.1 }
    ensures { IfOk result (λ found. MatchOption found
        (¬ (IsSubstitutable (map unknown_of unknowns.now) eq.now (derivative_of term.now.0)))
        (λ s. (s.der ≡ term.now.0) × IsSubstitutable (map unknown_of unknowns.now) eq.now (derivative_of s.der)
        × IsSolved (map unknown_of unknowns.now) eq.now s)) }
{
    if order_of_derivative(&term.0) != 0 {
        return Ok(None);
    }
    solved_for(alloc, eq, unknowns, term)
}

/// Replaces the unknown for which the equation at a place is solved.
fn substitute(
    system: &mut LinSystem,
    tables: &mut Tables,
    alloc: Global,
    place: usize,
    solved: &Solved,
) -> Result<(), PolyFail>
    requires is { IsSubstitution system.old.system place solved.now }
    requires indexed { IsIndexOf tables.old system.old.system.equations }
    ensures after { OnOk result (AfterSubstitute system.old.system place system.new.system) }
    ensures space { system.new.space ≡ system.old.space }
    ensures fits { OnOk result (IsWorkWithin (TryMakes Substitute system.old.system (at place))) }
    ensures past { IfErr result (λ fail. IsWorkCause fail (TryMakes Substitute system.old.system (at place))) }
    ensures kept { OnErr result (system.new ≡ system.old) }
    ensures indexed { Follows tables.old tables.new system.new.system.equations }
{
    system_is_valid(system);
    let form = solution(alloc, solved)?;
    solved.number.fits();
    let divisor = solved.number.absolute();
    eliminate_divided(
        system,
        tables,
        alloc,
        place,
        solved.der.unknown,
        &form,
        divisor,
        &[],
    )
}

/// What an unknown is over the absolute value of its number: the rest times minus the sign of the number.
///
/// `Past` comes exactly where it is past a limit.
fn solution(alloc: Global, solved: &Solved) -> Result<LinEq, PolyFail>
    ensures solution { IfOk result (λ made. made ≡ times_form (constant (neg_ℤ (sign solved.now.number))) solved.now.rest) }
    ensures fits { OnOk result (IsFormWithinLimits (absolute_form
        (times_form (constant (neg_ℤ (sign solved.now.number))) solved.now.rest))) }
    ensures past { IfErr result (λ fail. IsFormCause fail (absolute_form
        (times_form (constant (neg_ℤ (sign solved.now.number))) solved.now.rest))) }
{
    let factor = constant_polynomial(alloc, minus_sign(solved.number))?;
    let none = LinEq::of_terms(Vec::new(alloc));
    sum_of_multiples(alloc, &factor, &solved.rest, &factor, &none)
}

/// Minus the sign of a number.
fn minus_sign(number: Whole) -> Whole
    ensures { result ≡ neg_ℤ (sign number) }
{
    if number.get() < 0 {
        Whole::one()
    } else {
        Whole::one().neg()
    }
}
