// The fields f1*d_x + f2*d_u with the condition that f1 is 0, changed in each way.
ghost use Rattle.std.specs.Prelude.{◌≡◌, ◌∷◌, [], pos, IfOk};
ghost use Rattle.lie_math.specs.LinearForm.{no_form, unknown_form};
ghost use Rattle.lie_lin.proofs.OpeningSystem.{first, second, worked};

use crate::{add_form, eliminate, eliminate_divided, exchange_forms, mentions};
use lie_bytes::NoMemory;
use lie_jet::{Der, Space};
use lie_lin::{LinEq, LinSystem, Unknown, derivative_alone, triples};
use lie_ring::{PolyFail, Whole};
use lie_tables::Tables;
use std::alloc::Global;
use std::slice;
use std::test::Fail;

/// The form of an unknown itself.
fn unknown(alloc: Global, number: u32) -> Result<LinEq, NoMemory>
    ensures { IfOk result (λ form. form ≡ unknown_form number) }
{
    let counts = [0; 8];
    derivative_alone(
        alloc,
        Der {
            unknown: number,
            counts,
        },
    )
}

/// Two unknowns, each of both variables.
fn unknowns(alloc: Global) -> Result<Vec<Unknown>, NoMemory>
    ensures { IfOk result (λ us. us.items ≡ first ∷ second ∷ []) }
{
    let mut unknowns = Vec::new(alloc);
    unknowns.push(Unknown { number: 1, vars: 3 })?;
    unknowns.push(Unknown { number: 2, vars: 3 })?;
    Ok(unknowns)
}

/// The fields with their condition.
fn fields(alloc: Global) -> Result<LinSystem, NoMemory>
    ensures space { IfOk result (λ s. s.space ≡ record { p = 1; q = 1 }) }
    ensures system { IfOk result (λ s. s.system ≡ worked) }
{
    let unknowns = unknowns(alloc)?;
    let mut equations = Vec::new(alloc);
    equations.push(unknown(alloc, 1)?)?;
    let mut general = Vec::new(alloc);
    general.push(unknown(alloc, 1)?)?;
    general.push(unknown(alloc, 2)?)?;
    let space = Space { p: 1, q: 1 };
    Ok(LinSystem::new(space, unknowns, equations, general, 3))
}

/// The number and the unknown of the first triple of a form; two zeros where it is empty.
fn first_of(alloc: Global, form: &LinEq) -> Result<(i128, u32), NoMemory> {
    let list = triples(alloc, form)?;
    match list.as_slice() {
        [] => Ok((0, 0)),
        [triple, ..] => Ok((triple.2.get(), triple.0.unknown)),
    }
}

/// The same of each form.
fn first_of_each(alloc: Global, forms: &[LinEq]) -> Result<Vec<(i128, u32)>, NoMemory> {
    let mut list = Vec::new(alloc);
    for form in forms {
        list.push(first_of(alloc, form)?)?;
    }
    Ok(list)
}

/// The equations after f2 is added.
fn added(alloc: Global) -> Result<Vec<(i128, u32)>, PolyFail> {
    let mut system = fields(alloc)?;
    let form = unknown(alloc, 2)?;
    add_form(&mut system, &mut Tables::none(alloc), alloc, &form)?;
    Ok(first_of_each(alloc, system.equations())?)
}

/// The equations after f2 takes the place of f1.
fn exchanged(alloc: Global) -> Result<Vec<(i128, u32)>, PolyFail> {
    let mut system = fields(alloc)?;
    let form = unknown(alloc, 2)?;
    exchange_forms(
        &mut system,
        &mut Tables::none(alloc),
        alloc,
        0,
        slice::from_ref(&form),
    )?;
    Ok(first_of_each(alloc, system.equations())?)
}

/// The empty form.
fn empty_form(alloc: Global) -> LinEq
    ensures { result ≡ no_form }
{
    LinEq::of_terms(Vec::new(alloc))
}

/// The number 6.
fn six() -> Whole
    ensures { result ≡ pos 6 }
{
    match Whole::new(6) {
        Some(six) => six,
        None => unreachable!(),
    }
}

/// The general forms after 0 over 6 takes the place of f1.
fn eliminated(alloc: Global) -> Result<Vec<(i128, u32)>, PolyFail> {
    let mut system = fields(alloc)?;
    eliminate(
        &mut system,
        &mut Tables::none(alloc),
        alloc,
        0,
        1,
        &empty_form(alloc),
        six(),
        &[],
    )?;
    Ok(first_of_each(alloc, system.general())?)
}

/// The same, divided.
fn eliminated_divided(alloc: Global) -> Result<Vec<(i128, u32)>, PolyFail> {
    let mut system = fields(alloc)?;
    eliminate_divided(
        &mut system,
        &mut Tables::none(alloc),
        alloc,
        0,
        1,
        &empty_form(alloc),
        six(),
        &[],
    )?;
    Ok(first_of_each(alloc, system.general())?)
}

#[test]
fn equations_are_changed(rt: HostRuntime) -> Result<(), Fail> {
    let equations = added(rt.alloc()).map_err(|_| "added")?;
    assert_eq!(rt; equations.as_slice(), [(1, 1), (1, 2)].as_slice());
    let equations = exchanged(rt.alloc()).map_err(|_| "exchanged")?;
    assert_eq!(rt; equations.as_slice(), [(1, 2)].as_slice());
    let form = unknown(rt.alloc(), 2).map_err(|_| "memory")?;
    assert_eq!(rt; (mentions(&form, 1), mentions(&form, 2)), (false, true));
    Ok(())
}

#[test]
fn unknown_is_eliminated(rt: HostRuntime) -> Result<(), Fail> {
    let general = eliminated(rt.alloc()).map_err(|_| "eliminated")?;
    assert_eq!(rt; general.as_slice(), [(0, 0), (6, 2)].as_slice());
    let general = eliminated_divided(rt.alloc()).map_err(|_| "divided")?;
    assert_eq!(rt; general.as_slice(), [(0, 0), (1, 2)].as_slice());
    Ok(())
}
