// The equations of conditions, and the system without conditions.
ghost use Rattle.std.specs.Prelude.{IfOk};
ghost use Rattle.lie_systems.specs.Bulk.{IsFormWithinLimits};

use crate::equations::{equations_of, opening_system};
use lie_form::SymForm;
use lie_jet::{Der, JetPoly, Space};
use lie_lin::{lead, triples};
use lie_ring::{Mono, Polynomial, Whole};
use std::alloc::Global;
use std::test::Fail;

// The variables are x, u and u_x, with the numbers 0, 1 and 2.
const SPACE: Space = Space { p: 1, q: 1 };

// A derivative by x and u.
fn der(unknown: u32, by_x: u8, by_u: u8) -> Der {
    let mut counts = [0; 8];
    counts[0] = by_x;
    counts[1] = by_u;
    Der { unknown, counts }
}

// Adds a number times a power of a variable times a derivative.
fn put(
    form: &mut SymForm,
    alloc: Global,
    number: i128,
    power: (u32, u32),
    der: Der,
) -> Result<(), Fail> {
    let mono = if power.1 > 0 {
        Mono::new(alloc, &[power])
            .map_err(|_| "memory")?
            .ok_or("monomial")?
    } else {
        Mono::one(alloc)
    };
    let number = Whole::new(number).ok_or("number")?;
    let poly = JetPoly::of_terms(alloc, &[(mono, number)]).map_err(|_| "polynomial")?;
    form.put(alloc, der, poly).map_err(|_| "form")?;
    Ok(())
}

fn within(form: SymForm) -> Result<SymForm, Fail>
    ensures { IfOk result IsFormWithinLimits }
{
    match form.within_limits() {
        Ok(()) => Ok(form),
        Err(_) => Err(Fail::from("limits")),
    }
}

// The reduced condition of u_x = u.
fn growth(alloc: Global) -> Result<SymForm, Fail>
    ensures { IfOk result IsFormWithinLimits }
{
    let mut form = SymForm::zero(alloc);
    put(&mut form, alloc, 1, (1, 0), der(2, 1, 0))?;
    put(&mut form, alloc, 1, (1, 1), der(2, 0, 1))?;
    put(&mut form, alloc, -1, (1, 1), der(1, 1, 0))?;
    put(&mut form, alloc, -1, (1, 2), der(1, 0, 1))?;
    put(&mut form, alloc, -1, (1, 0), der(2, 0, 0))?;
    within(form)
}

// The reduced condition of u_xx = 0.
fn line(alloc: Global) -> Result<SymForm, Fail>
    ensures { IfOk result IsFormWithinLimits }
{
    let mut form = SymForm::zero(alloc);
    put(&mut form, alloc, 1, (2, 0), der(2, 2, 0))?;
    put(&mut form, alloc, 2, (2, 1), der(2, 1, 1))?;
    put(&mut form, alloc, -1, (2, 1), der(1, 2, 0))?;
    put(&mut form, alloc, 1, (2, 2), der(2, 0, 2))?;
    put(&mut form, alloc, -2, (2, 2), der(1, 1, 1))?;
    put(&mut form, alloc, -1, (2, 3), der(1, 0, 2))?;
    within(form)
}

// Whether a triple has this number, exponent of u and derivative.
fn is(triple: &(Der, Mono, Whole), number: i128, exponent: u32, der: Der) -> bool {
    triple.2.get() == number && triple.1.exponent(1) == exponent && triple.0 == der
}

#[test]
fn growth_has_one_equation(rt: HostRuntime) -> Result<(), Fail> {
    let alloc = rt.alloc();
    let conditions = [growth(alloc)?];
    let equations = equations_of(alloc, SPACE, &conditions).map_err(|_| "memory")?;
    assert_eq!(rt; equations.len(), 1);
    let list = triples(alloc, &equations[0]).map_err(|_| "memory")?;
    assert_eq!(rt; list.len(), 5);
    assert!(rt; is(&list[0], 1, 0, der(2, 1, 0)));
    assert!(rt; is(&list[1], 1, 1, der(2, 0, 1)));
    assert!(rt; is(&list[2], -1, 1, der(1, 1, 0)));
    assert!(rt; is(&list[3], -1, 2, der(1, 0, 1)));
    assert!(rt; is(&list[4], -1, 0, der(2, 0, 0)));
    Ok(())
}

#[test]
fn equal_parts_come_once_and_in_order(rt: HostRuntime) -> Result<(), Fail> {
    let alloc = rt.alloc();
    let conditions = [line(alloc)?, line(alloc)?];
    let equations = equations_of(alloc, SPACE, &conditions).map_err(|_| "memory")?;
    assert_eq!(rt; equations.len(), 4);
    assert_eq!(rt; lead(&equations[0]), Some(der(1, 0, 2)));
    assert_eq!(rt; lead(&equations[1]), Some(der(2, 2, 0)));
    let list = triples(alloc, &equations[2]).map_err(|_| "memory")?;
    assert_eq!(rt; list.len(), 2);
    assert!(rt; is(&list[0], 1, 0, der(2, 0, 2)));
    assert!(rt; is(&list[1], -2, 0, der(1, 1, 1)));
    let list = triples(alloc, &equations[3]).map_err(|_| "memory")?;
    assert_eq!(rt; list.len(), 2);
    assert!(rt; is(&list[0], 2, 0, der(2, 1, 1)));
    assert!(rt; is(&list[1], -1, 0, der(1, 2, 0)));
    Ok(())
}

#[test]
fn without_conditions_there_are_no_equations(rt: HostRuntime) -> Result<(), Fail> {
    let alloc = rt.alloc();
    let system = opening_system(alloc, SPACE, &[]).map_err(|_| "system")?;
    assert_eq!(rt; system.equations().len(), 0);
    assert_eq!(rt; system.unknowns().len(), 2);
    assert_eq!(rt; system.unknowns()[1].number, 2);
    assert_eq!(rt; system.unknowns()[1].vars, 3);
    assert_eq!(rt; system.general().len(), 2);
    assert_eq!(rt; lead(&system.general()[1]), Some(der(2, 0, 0)));
    assert_eq!(rt; system.next(), 3);
    Ok(())
}
