// Lists of equations in order, and a system whose parts are changed.
ghost use Rattle.std.specs.Prelude.{◌≡◌, ◌+◌, ◌∷◌, [], length, map, IfOk, OnOk};
ghost use Rattle.std.specs.List.Sorted.{IsStrictlySortedBy};
ghost use Rattle.lie_math.specs.LinearForm.{unknown_form};
ghost use Rattle.lie_systems.specs.EquationOrder.{equation_cmp};
ghost use Rattle.lie_systems.specs.ValidSystems.{IsValid};
ghost use Rattle.lie_lin.specs.EquationLists.{IsEquationFor};
ghost use Rattle.lie_lin.specs.Systems.{unknown_of, with_unknowns};

use crate::tests::unknown;
use crate::{LinEq, LinSystem, Unknown, lead, put_equation, replace_equation};
use lie_bytes::NoMemory;
use lie_jet::Space;
use std::alloc::Global;
use std::test::Fail;

// The number of the unknown of the lead; 0 where the form is empty.
fn number_of(eq: &LinEq) -> u32 {
    match lead(eq) {
        Some(der) => der.unknown,
        None => 0,
    }
}

// The numbers of the unknowns of the first two leads, and how many equations there are.
fn numbers_of(equations: &[LinEq]) -> (u32, u32, usize) {
    match equations {
        [] => (0, 0, 0),
        [one] => (number_of(one), 0, 1),
        [one, two, ..] => (number_of(one), number_of(two), equations.len()),
    }
}

// The list after an unknown is put.
fn put(list: &mut Vec<LinEq>, alloc: Global, number: u32) -> Result<(u32, u32, usize), NoMemory>
    requires { IsStrictlySortedBy equation_cmp list.old.items }
    ensures { OnOk result (IsStrictlySortedBy equation_cmp list.new.items) }
{
    put_equation(list, alloc, unknown(alloc, number)?)?;
    Ok(numbers_of(list.as_slice()))
}

// The list after an unknown takes the place of the first equation.
fn replaced(
    list: &mut Vec<LinEq>,
    alloc: Global,
    number: u32,
) -> Result<(u32, u32, usize), NoMemory>
    requires { IsStrictlySortedBy equation_cmp list.old.items }
    ensures { OnOk result (IsStrictlySortedBy equation_cmp list.new.items) }
{
    if list.len() == 0 {
        return Ok((0, 0, 0));
    }
    replace_equation(list, alloc, 0, unknown(alloc, number)?)?;
    Ok(numbers_of(list.as_slice()))
}

fn lists(alloc: Global) -> Result<[(u32, u32, usize); 6], NoMemory> {
    let mut list = Vec::new(alloc);
    Ok([
        put(&mut list, alloc, 2)?,
        put(&mut list, alloc, 1)?,
        put(&mut list, alloc, 2)?,
        replaced(&mut list, alloc, 3)?,
        replaced(&mut list, alloc, 2)?,
        replaced(&mut list, alloc, 3)?,
    ])
}

#[test]
fn equations_stay_in_order_each_once(rt: HostRuntime) -> Result<(), Fail> {
    let lists = lists(rt.alloc()).map_err(|_| "memory")?;
    let expected = [
        (2, 0, 1),
        (1, 2, 2),
        (1, 2, 2),
        (2, 3, 2),
        (2, 3, 2),
        (3, 0, 1),
    ];
    assert_eq!(rt; lists, expected);
    Ok(())
}

// Two unknowns, each of both variables.
fn unknowns(alloc: Global) -> Result<Vec<Unknown>, NoMemory>
    ensures { IfOk result (λ us. us.items ≡ record { number = 1; vars = 3 } ∷ record { number = 2; vars = 3 } ∷ []) }
{
    let mut unknowns = Vec::new(alloc);
    unknowns.push(Unknown { number: 1, vars: 3 })?;
    unknowns.push(Unknown { number: 2, vars: 3 })?;
    Ok(unknowns)
}

// The fields f1*d_x + f2*d_u with the condition that f1 is 0.
fn fields(alloc: Global) -> Result<LinSystem, NoMemory>
    ensures counts { IfOk result (λ s. (length s.system.unknowns ≡ 2) × (length s.system.equations ≡ 1)
        × (length s.system.general ≡ 2) × (s.system.next ≡ 3)) }
    ensures forms { IfOk result (λ s. IsEquationFor (s.space.p + s.space.q) s.system (unknown_form 2)) }
    ensures unknowns { IfOk result (λ s. IsValid (s.space.p + s.space.q)
        (with_unknowns s.system (map unknown_of (record { number = 1; vars = 3 } ∷ record { number = 2; vars = 3 } ∷ [])) 4)) }
{
    let unknowns = unknowns(alloc)?;
    let mut equations = Vec::new(alloc);
    equations.push(unknown(alloc, 1)?)?;
    let mut general = Vec::new(alloc);
    general.push(unknown(alloc, 1)?)?;
    general.push(unknown(alloc, 2)?)?;
    Ok(LinSystem::new(Space { p: 1, q: 1 }, unknowns, equations, general, 3))
}

#[test]
fn system_keeps_its_parts(rt: HostRuntime) -> Result<(), Fail> {
    let system = fields(rt.alloc()).map_err(|_| "memory")?;
    assert_eq!(rt; system.space(), Space { p: 1, q: 1 });
    assert_eq!(rt; system.unknowns().len(), 2);
    assert_eq!(rt; system.unknowns()[1].number, 2);
    assert_eq!(rt; numbers_of(system.equations()), (1, 0, 1));
    assert_eq!(rt; numbers_of(system.general()), (1, 2, 2));
    assert_eq!(rt; system.next(), 3);
    let (unknowns, equations, general) = system.into_parts();
    assert_eq!(rt; (unknowns.len(), equations.len(), general.len()), (2, 1, 2));
    Ok(())
}

// The equations with f2 put, with f2 in place of f1, and without f1.
fn changed_equations(alloc: Global) -> Result<[(u32, u32, usize); 3], NoMemory> {
    let mut more = fields(alloc)?;
    more.put_equation(alloc, unknown(alloc, 2)?)?;
    let mut other = fields(alloc)?;
    other.replace_equation(alloc, 0, unknown(alloc, 2)?)?;
    let mut less = fields(alloc)?;
    less.remove_equation(0);
    Ok([
        numbers_of(more.equations()),
        numbers_of(other.equations()),
        numbers_of(less.equations()),
    ])
}

// The equations after they are taken out, and after they are put back.
fn exchanged_equations(alloc: Global) -> Result<[(u32, u32, usize); 2], NoMemory> {
    let mut system = fields(alloc)?;
    system.space();
    let equations = system.take_equations(alloc);
    let none = numbers_of(system.equations());
    system.set_equations(equations);
    Ok([none, numbers_of(system.equations())])
}

// How many unknowns there are, and the number above theirs, after the same are put there with another number.
fn exchanged_unknowns(alloc: Global) -> Result<(usize, u32), NoMemory> {
    let mut system = fields(alloc)?;
    let unknowns = unknowns(alloc)?;
    system.set_unknowns(unknowns, 4);
    Ok((system.unknowns().len(), system.next()))
}

#[test]
fn parts_of_systems_are_changed(rt: HostRuntime) -> Result<(), Fail> {
    let equations = changed_equations(rt.alloc()).map_err(|_| "memory")?;
    assert_eq!(rt; equations, [(1, 2, 2), (2, 0, 1), (0, 0, 0)]);
    let exchanged = exchanged_equations(rt.alloc()).map_err(|_| "memory")?;
    assert_eq!(rt; exchanged, [(0, 0, 0), (1, 0, 1)]);
    let unknowns = exchanged_unknowns(rt.alloc()).map_err(|_| "memory")?;
    assert_eq!(rt; unknowns, (2, 4));
    Ok(())
}

// Whether these parts make a system: the bits of the variables, the unknown that is 0, and the next number.
fn is_made(alloc: Global, bits: u8, number: u32, next: u32) -> Result<bool, NoMemory> {
    let mut unknowns = Vec::new(alloc);
    unknowns.push(Unknown {
        number: 1,
        vars: bits,
    })?;
    let mut equations = Vec::new(alloc);
    equations.push(unknown(alloc, number)?)?;
    let mut general = Vec::new(alloc);
    general.push(unknown(alloc, 1)?)?;
    general.push(unknown(alloc, 1)?)?;
    let space = Space { p: 1, q: 1 };
    let made = LinSystem::of_parts(alloc, space, unknowns, equations, general, next)?;
    Ok(made.is_some())
}

#[test]
fn valid_parts_make_a_system(rt: HostRuntime) -> Result<(), Fail> {
    for (bits, number, next, valid) in [
        (3, 1, 2, true),
        (7, 1, 2, false),
        (3, 2, 2, false),
        (3, 1, 1, false),
    ] {
        let made = is_made(rt.alloc(), bits, number, next).map_err(|_| "memory")?;
        assert_eq!(rt; made, valid);
    }
    Ok(())
}
