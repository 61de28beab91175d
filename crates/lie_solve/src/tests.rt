// The run of f1_xx + u*f2_x + f1 = 0 for f1(x) and f2(x), with the fields f1*d_x + f2*d_u.
ghost use Rattle.std.specs.Prelude.{◌<◌};

use crate::{Place, RuleName, Stop, next_step, run_steps, try_rule};
use lie_bytes::NoMemory;
use lie_jet::{Der, Space};
use lie_lin::{LinEq, LinSystem, Unknown, compare_equations, of_triples};
use lie_ring::{Mono, PolyFail, Whole};
use std::alloc::Global;
use std::test::Fail;

/// The derivative of an unknown by x so often, times a power of u.
fn triple(
    alloc: Global,
    unknown: u32,
    times: u8,
    power: u32,
) -> Result<(Der, Mono, Whole), NoMemory> {
    let der = Der {
        unknown,
        counts: [times, 0, 0, 0, 0, 0, 0, 0],
    };
    let mut pairs = Vec::new(alloc);
    if power != 0 {
        pairs.push((1, power))?;
    }
    let mono = Mono::new(alloc, pairs.as_slice())?.ok_or(NoMemory)?;
    Ok((der, mono, Whole::new(1).ok_or(NoMemory)?))
}

/// The sum of such products.
fn form(alloc: Global, products: &[(u32, u8, u32)]) -> Result<LinEq, NoMemory> {
    let mut triples = Vec::new(alloc);
    for product in products {
        triples.push(triple(alloc, product.0, product.1, product.2)?)?;
    }
    of_triples(alloc, triples.as_slice()).map_err(|_| NoMemory)
}

/// The system before the run.
pub fn opening(alloc: Global) -> Result<LinSystem, NoMemory> {
    let mut unknowns = Vec::new(alloc);
    unknowns.push(Unknown { number: 1, vars: 1 })?;
    unknowns.push(Unknown { number: 2, vars: 1 })?;
    let mut equations = Vec::new(alloc);
    equations.push(form(alloc, &[(1, 2, 0), (2, 1, 1), (1, 0, 0)])?)?;
    let mut general = Vec::new(alloc);
    general.push(form(alloc, &[(1, 0, 0)])?)?;
    general.push(form(alloc, &[(2, 0, 0)])?)?;
    let space = Space { p: 1, q: 1 };
    LinSystem::of_parts(alloc, space, unknowns, equations, general, 3)?.ok_or(NoMemory)
}

/// Whether the form at a place of a list is the product of a derivative of an unknown.
fn is_derivative(
    alloc: Global,
    found: &[LinEq],
    place: usize,
    unknown: u32,
    times: u8,
) -> Result<bool, NoMemory> {
    if place >= found.len() {
        return Ok(false);
    }
    let wanted = form(alloc, &[(unknown, times, 0)])?;
    Ok(compare_equations(alloc, &found[place], &wanted)?.is_eq())
}

/// Whether the run ended, the steps that are known, and the numbers of unknowns and equations that are left.
fn outcome(alloc: Global, budget: u64) -> Result<(bool, u64, usize, usize), NoMemory>
    requires { budget < 100 }
{
    match run_steps(opening(alloc)?, alloc, budget) {
        Ok((system, steps)) => Ok((
            true,
            steps,
            system.unknowns().len(),
            system.equations().len(),
        )),
        Err(Stop::Spent { system }) => Ok((
            false,
            budget,
            system.unknowns().len(),
            system.equations().len(),
        )),
        Err(_) => Err(NoMemory),
    }
}

/// The outcomes with several budgets.
fn outcomes(alloc: Global) -> Result<[(bool, u64, usize, usize); 6], NoMemory> {
    Ok([
        outcome(alloc, 0)?,
        outcome(alloc, 1)?,
        outcome(alloc, 2)?,
        outcome(alloc, 3)?,
        outcome(alloc, 4)?,
        outcome(alloc, 99)?,
    ])
}

#[test]
fn run_ends_or_spends_its_budget(rt: HostRuntime) -> Result<(), Fail> {
    let outcomes = outcomes(rt.alloc()).map_err(|_| "memory")?;
    let expected = [
        (false, 0, 2, 1),
        (false, 1, 2, 2),
        (false, 2, 2, 2),
        (false, 3, 1, 1),
        (true, 4, 1, 0),
        (true, 4, 1, 0),
    ];
    assert_eq!(rt; outcomes, expected);
    Ok(())
}

/// The system that a run leaves, with its end or with its budget spent.
fn left(alloc: Global, budget: u64) -> Result<LinSystem, NoMemory>
    requires { budget < 100 }
{
    match run_steps(opening(alloc)?, alloc, budget) {
        Ok((system, _)) => Ok(system),
        Err(Stop::Spent { system }) => Ok(system),
        Err(_) => Err(NoMemory),
    }
}

/// Whether the two equations are f1 = 0 and f2_x = 0 where two steps are made.
fn are_spent(alloc: Global) -> Result<bool, NoMemory> {
    let spent = left(alloc, 2)?;
    Ok(
        is_derivative(alloc, spent.equations(), 0, 1, 0)?
            && is_derivative(alloc, spent.equations(), 1, 2, 1)?,
    )
}

/// Whether the fields of the end are f3*d_u, with a constant f3.
fn are_translations(alloc: Global) -> Result<bool, NoMemory> {
    let end = left(alloc, 4)?;
    let unknowns = [Unknown { number: 3, vars: 0 }];
    Ok(
        end.unknowns() == unknowns.as_slice()
            && is_empty(end.general())
            && is_derivative(alloc, end.general(), 1, 3, 0)?,
    )
}

/// Whether the first form is empty.
fn is_empty(forms: &[LinEq]) -> bool {
    match forms {
        [] => false,
        [form, ..] => form.terms().len() == 0,
    }
}

#[test]
fn run_leaves_its_equations_and_fields(rt: HostRuntime) -> Result<(), Fail> {
    let alloc = rt.alloc();
    assert!(rt; are_spent(alloc).map_err(|_| "memory")?);
    assert!(rt; are_translations(alloc).map_err(|_| "memory")?);
    Ok(())
}

/// Whether the rule for an unknown that is 0 applies to the first equation.
fn is_zero(system: &mut LinSystem, alloc: Global) -> Result<bool, NoMemory> {
    if system.equations().len() == 0 {
        return Ok(false);
    }
    let place = Place {
        first: 0,
        second: 0,
    };
    try_rule(system, alloc, RuleName::Zero, place).map_err(|_| NoMemory)
}

/// The rules of the first steps, one after the other.
fn rules(alloc: Global) -> Result<[Option<RuleName>; 5], PolyFail> {
    let mut system = opening(alloc)?;
    Ok([
        next_step(&mut system, alloc)?,
        next_step(&mut system, alloc)?,
        next_step(&mut system, alloc)?,
        next_step(&mut system, alloc)?,
        next_step(&mut system, alloc)?,
    ])
}

#[test]
fn rules_are_tried_in_order(rt: HostRuntime) -> Result<(), Fail> {
    let alloc = rt.alloc();
    let mut system = opening(alloc).map_err(|_| "memory")?;
    assert!(rt; !is_zero(&mut system, alloc).map_err(|_| "memory")?);
    let rules = rules(alloc).map_err(|_| "memory")?;
    let expected = [
        Some(RuleName::Split),
        Some(RuleName::Lowest),
        Some(RuleName::Zero),
        Some(RuleName::Absent),
        None,
    ];
    assert_eq!(rt; rules, expected);
    Ok(())
}
