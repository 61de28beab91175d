// Equations put into a list in order: normalised, without empty ones and doubles.
use crate::put_cleaned;
use crate::test_forms::{Triple, are_forms, form, t};
use lie_bytes::NoMemory;
use lie_lin::LinEq;
use lie_tables::Tables;
use std::alloc::Global;
use std::test::Fail;

/// No exponents.
const NONE: [u32; 3] = [0; 3];

/// An unknown itself.
const ITSELF: [u8; 3] = [0; 3];

/// No forms.
fn none(alloc: Global) -> Vec<LinEq> {
    Vec::new(alloc)
}

/// One form.
fn one(alloc: Global, first: &[Triple]) -> Result<Vec<LinEq>, NoMemory> {
    let mut list = Vec::new(alloc);
    list.push(form(alloc, first)?)?;
    Ok(list)
}

/// Two forms.
fn two(alloc: Global, first: &[Triple], second: &[Triple]) -> Result<Vec<LinEq>, NoMemory> {
    let mut list = one(alloc, first)?;
    list.push(form(alloc, second)?)?;
    Ok(list)
}

/// Three forms.
fn three(
    alloc: Global,
    first: &[Triple],
    second: &[Triple],
    third: &[Triple],
) -> Result<Vec<LinEq>, NoMemory> {
    let mut list = two(alloc, first, second)?;
    list.push(form(alloc, third)?)?;
    Ok(list)
}

/// Whether the list of the first forms, to which the others are added, is the last.
fn cleans(
    alloc: Global,
    first: Vec<LinEq>,
    added: Vec<LinEq>,
    wanted: Vec<LinEq>,
) -> Result<bool, NoMemory> {
    let mut list = Vec::new(alloc);
    let mut tables = Tables::none(alloc);
    let _ = put_cleaned(&mut list, &mut tables, alloc, first.as_slice())?;
    let _ = put_cleaned(&mut list, &mut tables, alloc, added.as_slice())?;
    are_forms(alloc, list.as_slice(), wanted.as_slice())
}

fn equations_are_normalised(alloc: Global) -> Result<bool, NoMemory> {
    let sign = cleans(
        alloc,
        none(alloc),
        one(alloc, &[t(2, NONE, 1, ITSELF), t(-4, NONE, 2, ITSELF)])?,
        one(alloc, &[t(2, NONE, 2, ITSELF), t(-1, NONE, 1, ITSELF)])?,
    )?;
    let monomial = cleans(
        alloc,
        none(alloc),
        one(
            alloc,
            &[t(-2, [1, 0, 0], 1, ITSELF), t(4, [2, 0, 0], 2, ITSELF)],
        )?,
        one(alloc, &[t(2, [1, 0, 0], 2, ITSELF), t(-1, NONE, 1, ITSELF)])?,
    )?;
    Ok(sign && monomial)
}

fn doubles_are_dropped(alloc: Global) -> Result<bool, NoMemory> {
    let f1_x = t(1, NONE, 1, [1, 0, 0]);
    let multiple = cleans(
        alloc,
        one(alloc, &[f1_x])?,
        one(alloc, &[t(3, [0, 1, 0], 1, [1, 0, 0])])?,
        one(alloc, &[f1_x])?,
    )?;
    let empty = cleans(
        alloc,
        one(alloc, &[f1_x])?,
        one(alloc, &[])?,
        one(alloc, &[f1_x])?,
    )?;
    let among_added = cleans(
        alloc,
        one(alloc, &[t(1, NONE, 2, [1, 0, 0])])?,
        three(
            alloc,
            &[t(1, NONE, 1, ITSELF)],
            &[t(5, NONE, 1, ITSELF)],
            &[t(1, NONE, 1, [0, 1, 0])],
        )?,
        three(
            alloc,
            &[t(1, NONE, 1, ITSELF)],
            &[t(1, NONE, 1, [0, 1, 0])],
            &[t(1, NONE, 2, [1, 0, 0])],
        )?,
    )?;
    Ok(multiple && empty && among_added)
}

fn equations_are_in_order(alloc: Global) -> Result<bool, NoMemory> {
    let f1_x = t(1, NONE, 1, [1, 0, 0]);
    let f2 = t(1, NONE, 2, ITSELF);
    let f3 = t(1, NONE, 3, ITSELF);
    let f4 = t(1, NONE, 4, ITSELF);
    let by_derivatives = cleans(
        alloc,
        one(alloc, &[f1_x])?,
        two(alloc, &[t(7, NONE, 2, ITSELF)], &[f3, f4])?,
        three(alloc, &[f2], &[f1_x], &[f4, f3])?,
    )?;
    let by_numbers = cleans(
        alloc,
        one(alloc, &[f3, f2])?,
        two(
            alloc,
            &[f3, t(-1, NONE, 2, ITSELF)],
            &[t(2, NONE, 3, ITSELF), t(2, NONE, 2, ITSELF)],
        )?,
        two(alloc, &[f3, t(-1, NONE, 2, ITSELF)], &[f3, f2])?,
    )?;
    let by_length = cleans(
        alloc,
        two(alloc, &[f2], &[f1_x])?,
        two(
            alloc,
            &[t(2, [0, 0, 3], 2, [0, 1, 0]), t(6, [0, 0, 2], 1, ITSELF)],
            &[t(1, [1, 0, 0], 1, [1, 0, 0]), t(-1, NONE, 1, [1, 0, 0])],
        )?,
        three(
            alloc,
            &[f2],
            &[f1_x],
            &[t(1, [0, 0, 1], 2, [0, 1, 0]), t(3, NONE, 1, ITSELF)],
        )?,
    )?;
    Ok(by_derivatives && by_numbers && by_length)
}

#[test]
fn list_is_cleaned(rt: HostRuntime) -> Result<(), Fail> {
    let alloc = rt.alloc();
    assert!(rt; equations_are_normalised(alloc).map_err(|_| "memory")?);
    assert!(rt; doubles_are_dropped(alloc).map_err(|_| "memory")?);
    assert!(rt; equations_are_in_order(alloc).map_err(|_| "memory")?);
    Ok(())
}
