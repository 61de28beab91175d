// The places of equations, as steps change them.
use crate::tests::opening;
use crate::{Indexed, Place, RuleName, try_rule};
use lie_bytes::NoMemory;
use lie_jet::{Der, Space};
use lie_lin::{LinEq, LinSystem, Unknown, of_triples};
use lie_ring::{Mono, PolyFail, Ring, Whole};
use std::alloc::Global;
use std::test::Fail;

/// The derivative of an unknown by x and by u so often.
fn derivative(unknown: u32, by_x: u8, by_u: u8) -> Der {
    Der {
        unknown,
        counts: [by_x, by_u, 0, 0, 0, 0, 0, 0],
    }
}

/// The sum of such derivatives, each times a number.
fn form(alloc: Global, products: &[(u32, u8, u8, i128)]) -> Result<LinEq, NoMemory> {
    let mut triples = Vec::new(alloc);
    for product in products {
        let number = Whole::new(product.3).ok_or(NoMemory)?;
        let der = derivative(product.0, product.1, product.2);
        triples.push((der, Mono::one(alloc), number))?;
    }
    of_triples(alloc, triples.as_slice()).map_err(|_| NoMemory)
}

/// The system f1_xu = 0, f1_xx - f2 = 0 for f1(x,u) and f2(x,u).
fn mixed(alloc: Global) -> Result<LinSystem, NoMemory> {
    let mut unknowns = Vec::new(alloc);
    unknowns.push(Unknown { number: 1, vars: 3 })?;
    unknowns.push(Unknown { number: 2, vars: 3 })?;
    let mut equations = Vec::new(alloc);
    equations.push(form(alloc, &[(1, 1, 1, 1)])?)?;
    equations.push(form(alloc, &[(1, 2, 0, 1), (2, 0, 0, -1)])?)?;
    let mut general = Vec::new(alloc);
    general.push(form(alloc, &[(1, 0, 0, 1)])?)?;
    general.push(form(alloc, &[(2, 0, 0, 1)])?)?;
    let space = Space { p: 1, q: 1 };
    LinSystem::of_parts(alloc, space, unknowns, equations, general, 3)?.ok_or(NoMemory)
}

/// This system after its equations were crossed, with its tables.
fn crossed(alloc: Global) -> Result<Indexed, PolyFail> {
    let mut system = mixed(alloc)?;
    if system.equations().len() >= 2 {
        let place = Place {
            first: 0,
            second: 1,
        };
        let _ = try_rule(&mut system, alloc, RuleName::Cross, place)?;
    }
    Ok(Indexed::new(alloc, system)?)
}

/// The system f1_xx + u*f2_x + f1 = 0 after two steps, which mend its tables: f1 = 0, f2_x = 0.
fn stepped(alloc: Global) -> Result<Indexed, PolyFail> {
    let mut indexed = Indexed::new(alloc, opening(alloc)?)?;
    let _ = indexed.step(alloc)?;
    let _ = indexed.step(alloc)?;
    Ok(indexed)
}

#[test]
fn places_are_told(rt: HostRuntime) -> Result<(), Fail> {
    let alloc = rt.alloc();
    let indexed = crossed(alloc).map_err(|_| "memory")?;
    assert_eq!(rt; indexed.places(1), [1, 2].as_slice());
    assert_eq!(rt; indexed.places(2), [0, 2].as_slice());
    assert_eq!(rt; indexed.places(9).len(), 0);
    assert_eq!(rt; indexed.with_lead(&derivative(1, 2, 0)), [2].as_slice());
    Ok(())
}

#[test]
fn places_follow_steps(rt: HostRuntime) -> Result<(), Fail> {
    let alloc = rt.alloc();
    let indexed = stepped(alloc).map_err(|_| "memory")?;
    assert_eq!(rt; indexed.places(1), [0].as_slice());
    assert_eq!(rt; indexed.places(2), [1].as_slice());
    assert_eq!(rt; indexed.with_lead(&derivative(1, 2, 0)).len(), 0);
    assert_eq!(rt; indexed.with_lead(&derivative(2, 1, 0)), [1].as_slice());
    let system = indexed.into_system();
    assert_eq!(rt; system.equations().len(), 2);
    Ok(())
}
