// Tables of three equations in two unknowns.
use crate::Tables;
use lie_bytes::NoMemory;
use lie_jet::Der;
use lie_lin::{LinEq, derivative_alone, of_triples};
use lie_ring::{Mono, Ring, Whole};
use std::alloc::Global;
use std::test::Fail;

/// The derivative of an unknown by x so often.
fn derivative(unknown: u32, times: u8) -> Der {
    Der {
        unknown,
        counts: [times, 0, 0, 0, 0, 0, 0, 0],
    }
}

/// The sum of two derivatives.
fn sum(alloc: Global, left: Der, right: Der) -> Result<LinEq, NoMemory> {
    let mut triples = Vec::new(alloc);
    triples.push((left, Mono::one(alloc), Whole::one()))?;
    triples.push((right, Mono::one(alloc), Whole::one()))?;
    of_triples(alloc, triples.as_slice()).map_err(|_| NoMemory)
}

/// The equations f2 = 0, f1_x = 0 and f1_xx + f2 = 0.
fn three(alloc: Global) -> Result<Vec<LinEq>, NoMemory> {
    let mut equations = Vec::new(alloc);
    equations.push(derivative_alone(alloc, derivative(2, 0))?)?;
    equations.push(derivative_alone(alloc, derivative(1, 1))?)?;
    equations.push(sum(alloc, derivative(1, 2), derivative(2, 0))?)?;
    Ok(equations)
}

/// Their next places with f2 from 0, 1 and 3 on, and from 1 on where no tables are kept.
fn next_places(alloc: Global) -> Result<[Option<usize>; 4], NoMemory> {
    let equations = three(alloc)?;
    let tables = Tables::of(alloc, equations.as_slice())?;
    Ok([
        tables.next_place(equations.as_slice(), 2, 0),
        tables.next_place(equations.as_slice(), 2, 1),
        tables.next_place(equations.as_slice(), 2, 3),
        Tables::none(alloc).next_place(equations.as_slice(), 2, 1),
    ])
}

/// Their tables, after f1 = 0 was put in at place 1 and what stood at place 2 was taken out.
fn mended(alloc: Global) -> Result<Tables, NoMemory> {
    let equations = three(alloc)?;
    let mut tables = Tables::of(alloc, equations.as_slice())?;
    let added = derivative_alone(alloc, derivative(1, 0))?;
    tables.insert(alloc, 1, &added)?;
    tables.remove(2);
    Ok(tables)
}

#[test]
fn tables_are_mended(rt: HostRuntime) -> Result<(), Fail> {
    let alloc = rt.alloc();
    let tables = mended(alloc).map_err(|_| "memory")?;
    assert_eq!(rt; tables.places(1), [1, 2].as_slice());
    assert_eq!(rt; tables.places(2), [0, 2].as_slice());
    assert_eq!(rt; tables.places(9).len(), 0);
    assert_eq!(rt; tables.with_lead(&derivative(1, 2)), [2].as_slice());
    assert_eq!(rt; tables.with_lead(&derivative(1, 1)).len(), 0);
    assert_eq!(rt; Tables::none(alloc).places(1).len(), 0);
    Ok(())
}

#[test]
fn next_places_are_found(rt: HostRuntime) -> Result<(), Fail> {
    let places = next_places(rt.alloc()).map_err(|_| "memory")?;
    assert_eq!(rt; places, [Some(0), Some(2), None, Some(1)]);
    Ok(())
}
