// Derivatives and combinations: worked values. The variables are x and y; f1 is a function of x, f2 of y, f3 of both, and f4 a
// constant.
use crate::{combine, derive};
use lie_jet::Der;
use lie_lin::{LinEq, Unknown, compare_equations, of_triples};
use lie_ring::{Mono, PastKind, PolyFail, Whole};
use std::alloc::Global;
use std::test::Fail;

const FUNCTIONS: [Unknown; 4] = [
    Unknown { number: 1, vars: 1 },
    Unknown { number: 2, vars: 2 },
    Unknown { number: 3, vars: 3 },
    Unknown { number: 4, vars: 0 },
];

// An unknown, how often it is derived by x and y, the exponents of x and y, and a number.
type Row = (u32, [u8; 2], [u32; 2], i128);

fn der(unknown: u32, by: [u8; 2]) -> Der {
    let mut counts = [0; 8];
    counts[0] = by[0];
    counts[1] = by[1];
    Der { unknown, counts }
}

fn power(alloc: Global, exponents: [u32; 2]) -> Result<Mono, Fail> {
    let mut pairs = Vec::new(alloc);
    for (variable, exponent) in [(0, exponents[0]), (1, exponents[1])] {
        if exponent != 0 {
            pairs.push((variable, exponent)).map_err(|_| "memory")?;
        }
    }
    let made = Mono::new(alloc, pairs.as_slice()).map_err(|_| "memory")?;
    Ok(made.ok_or("exponent")?)
}

fn form(alloc: Global, rows: &[Row]) -> Result<LinEq, Fail> {
    let mut list = Vec::new(alloc);
    for row in rows {
        let number = Whole::new(row.3).ok_or("number")?;
        list.push((der(row.0, row.1), power(alloc, row.2)?, number))
            .map_err(|_| "memory")?;
    }
    let made = of_triples(alloc, list.as_slice()).map_err(|_| "form")?;
    Ok(made)
}

fn is_form(alloc: Global, made: Result<LinEq, PolyFail>, rows: &[Row]) -> Result<bool, Fail> {
    let expected = form(alloc, rows)?;
    match made {
        Ok(made) => {
            let order = compare_equations(alloc, &made, &expected).map_err(|_| "memory")?;
            Ok(order.is_eq())
        }
        Err(_) => Ok(false),
    }
}

fn kind(made: Result<LinEq, PolyFail>) -> Option<PastKind> {
    match made {
        Err(PolyFail::Past(kind)) => Some(kind),
        _ => None,
    }
}

fn derived(alloc: Global, rows: &[Row], by_y: bool, expected: &[Row]) -> Result<bool, Fail> {
    let eq = form(alloc, rows)?;
    let made = derive(alloc, &eq, FUNCTIONS.as_slice(), u8::from(by_y));
    is_form(alloc, made, expected)
}

fn derived_past(alloc: Global, rows: &[Row]) -> Result<Option<PastKind>, Fail> {
    let eq = form(alloc, rows)?;
    Ok(kind(derive(alloc, &eq, FUNCTIONS.as_slice(), 0)))
}

fn combined(
    alloc: Global,
    at: (u32, [u8; 2]),
    rows: &[Row],
    others: &[Row],
    expected: &[Row],
) -> Result<bool, Fail> {
    let eq = form(alloc, rows)?;
    let other = form(alloc, others)?;
    let made = combine(alloc, &der(at.0, at.1), &eq, &other);
    is_form(alloc, made, expected)
}

fn combined_past(
    alloc: Global,
    at: (u32, [u8; 2]),
    rows: &[Row],
    others: &[Row],
) -> Result<Option<PastKind>, Fail> {
    let eq = form(alloc, rows)?;
    let other = form(alloc, others)?;
    Ok(kind(combine(alloc, &der(at.0, at.1), &eq, &other)))
}

#[test]
fn derivatives_by_own_variables(rt: HostRuntime) -> Result<(), Fail> {
    let alloc = rt.alloc();
    assert!(rt;
        derived(
            alloc,
            &[(3, [1, 0], [1, 0], 1), (3, [0, 0], [0, 1], 2)],
            false,
            &[
                (3, [2, 0], [1, 0], 1),
                (3, [1, 0], [0, 1], 2),
                (3, [1, 0], [0, 0], 1)
            ],
        )?
    );
    assert!(rt;
        derived(
            alloc,
            &[(3, [1, 0], [1, 0], 1), (3, [0, 0], [0, 1], 2)],
            true,
            &[
                (3, [1, 1], [1, 0], 1),
                (3, [0, 1], [0, 1], 2),
                (3, [0, 0], [0, 0], 2)
            ],
        )?
    );
    assert!(rt;
        derived(
            alloc,
            &[(1, [1, 0], [1, 0], 1), (2, [0, 0], [1, 0], 1)],
            false,
            &[
                (1, [2, 0], [1, 0], 1),
                (1, [1, 0], [0, 0], 1),
                (2, [0, 0], [0, 0], 1)
            ],
        )?
    );
    assert!(rt;
        derived(
            alloc,
            &[(1, [1, 0], [1, 0], 1), (2, [0, 0], [1, 0], 1)],
            true,
            &[(2, [0, 1], [1, 0], 1)],
        )?
    );
    assert!(rt;
        derived(
            alloc,
            &[(4, [0, 0], [3, 1], 5)],
            false,
            &[(4, [0, 0], [2, 1], 15)],
        )?
    );
    assert!(rt; derived(alloc, &[(4, [0, 0], [0, 0], 7)], true, &[],)?);
    assert!(rt;
        derived(
            alloc,
            &[(3, [2, 1], [0, 0], -3), (3, [1, 1], [1, 0], 3)],
            false,
            &[
                (3, [3, 1], [0, 0], -3),
                (3, [2, 1], [1, 0], 3),
                (3, [1, 1], [0, 0], 3)
            ],
        )?
    );
    assert!(rt;
        derived(
            alloc,
            &[(3, [1, 0], [1, 0], 1), (3, [0, 0], [0, 0], -1)],
            false,
            &[(3, [2, 0], [1, 0], 1)],
        )?
    );
    assert!(rt; derived(alloc, &[], false, &[],)?);
    assert!(rt;
        derived(
            alloc,
            &[(1, [63, 0], [0, 0], 1)],
            false,
            &[(1, [64, 0], [0, 0], 1)],
        )?
    );
    assert_eq!(rt;
        derived_past(alloc, &[(1, [64, 0], [0, 0], 1)],)?,
        Some(PastKind::Order)
    );
    assert!(rt; derived(alloc, &[(1, [64, 0], [0, 0], 1)], true, &[],)?);
    assert_eq!(rt;
        derived_past(alloc, &[(4, [0, 0], [2, 0], i128::MAX)],)?,
        Some(PastKind::Coefficient)
    );
    assert!(rt;
        derived(
            alloc,
            &[(4, [0, 0], [2, 0], i128::MAX / 2)],
            false,
            &[(4, [0, 0], [1, 0], i128::MAX - 1)],
        )?
    );
    assert_eq!(rt;
        derived_past(
            alloc,
            &[(3, [1, 0], [1, 0], i128::MAX), (3, [0, 0], [0, 0], -1)],
        )?,
        Some(PastKind::Coefficient)
    );
    assert!(rt;
        derived(
            alloc,
            &[(3, [1, 0], [65535, 0], 1)],
            false,
            &[(3, [2, 0], [65535, 0], 1), (3, [1, 0], [65534, 0], 65535)],
        )?
    );
    Ok(())
}

#[test]
fn combinations_at_a_derivative(rt: HostRuntime) -> Result<(), Fail> {
    let alloc = rt.alloc();
    assert!(rt;
        combined(
            alloc,
            (1, [1, 0]),
            &[(1, [1, 0], [1, 0], 2), (2, [0, 0], [0, 0], 1)],
            &[(1, [1, 0], [0, 0], 4), (2, [0, 0], [0, 1], -1)],
            &[(2, [0, 0], [1, 1], 1), (2, [0, 0], [0, 0], 2)],
        )?
    );
    assert!(rt;
        combined(
            alloc,
            (3, [1, 0]),
            &[(3, [1, 0], [0, 0], 1)],
            &[(3, [1, 0], [0, 0], 1)],
            &[],
        )?
    );
    assert!(rt;
        combined(
            alloc,
            (3, [1, 0]),
            &[(3, [1, 0], [0, 0], 6), (3, [0, 0], [0, 0], 1)],
            &[(3, [1, 0], [0, 0], -4), (3, [0, 0], [0, 0], 1)],
            &[(3, [0, 0], [0, 0], -5)],
        )?
    );
    assert!(rt;
        combined(
            alloc,
            (3, [1, 0]),
            &[(3, [1, 0], [2, 1], 6), (3, [0, 0], [0, 0], 1)],
            &[(3, [1, 0], [1, 2], 9), (4, [0, 0], [0, 0], 5)],
            &[(4, [0, 0], [1, 0], -10), (3, [0, 0], [0, 1], 3)],
        )?
    );
    assert!(rt;
        combined(
            alloc,
            (3, [1, 0]),
            &[
                (3, [1, 0], [1, 0], 1),
                (3, [1, 0], [0, 1], 1),
                (3, [0, 0], [0, 0], 1)
            ],
            &[
                (3, [1, 0], [1, 0], 1),
                (3, [1, 0], [0, 1], -1),
                (4, [0, 0], [0, 0], 1)
            ],
            &[
                (4, [0, 0], [1, 0], -1),
                (4, [0, 0], [0, 1], -1),
                (3, [0, 0], [1, 0], 1),
                (3, [0, 0], [0, 1], -1)
            ],
        )?
    );
    assert!(rt;
        combined(
            alloc,
            (3, [1, 0]),
            &[(3, [2, 0], [0, 0], 1), (3, [1, 0], [0, 0], 3)],
            &[(3, [1, 0], [0, 0], 2), (3, [0, 0], [0, 0], 1)],
            &[(3, [2, 0], [0, 0], 2), (3, [0, 0], [0, 0], -3)],
        )?
    );
    assert!(rt;
        combined(
            alloc,
            (3, [2, 0]),
            &[(3, [2, 0], [0, 0], 3), (3, [0, 0], [0, 0], 1)],
            &[(3, [2, 0], [3, 0], 3), (3, [1, 1], [0, 0], 1)],
            &[(3, [1, 1], [0, 0], -1), (3, [0, 0], [3, 0], 1)],
        )?
    );
    assert!(rt;
        combined(
            alloc,
            (3, [1, 0]),
            &[(3, [1, 0], [0, 0], -1), (3, [0, 0], [0, 0], 2)],
            &[(3, [1, 0], [0, 0], -1), (3, [0, 0], [0, 0], 2)],
            &[],
        )?
    );
    assert_eq!(rt;
        combined_past(
            alloc,
            (3, [1, 0]),
            &[(3, [1, 0], [0, 0], 1), (3, [0, 0], [0, 0], i128::MAX)],
            &[(3, [1, 0], [0, 0], 1), (3, [0, 0], [0, 0], i128::MAX)],
        )?,
        Some(PastKind::Coefficient)
    );
    assert!(rt;
        combined(
            alloc,
            (3, [1, 0]),
            &[(3, [1, 0], [0, 0], 1), (3, [0, 0], [0, 0], i128::MAX / 2)],
            &[(3, [1, 0], [0, 0], 1), (3, [0, 0], [0, 0], i128::MAX / 2)],
            &[],
        )?
    );
    assert_eq!(rt;
        combined_past(
            alloc,
            (3, [1, 0]),
            &[(3, [1, 0], [40000, 0], 1)],
            &[(3, [1, 0], [0, 0], 1), (3, [0, 0], [40000, 0], 1)],
        )?,
        Some(PastKind::Exponent)
    );
    assert!(rt;
        combined(
            alloc,
            (3, [1, 0]),
            &[(3, [1, 0], [65535, 0], 1), (3, [0, 0], [0, 0], 1)],
            &[(3, [1, 0], [0, 1], 1), (3, [0, 0], [0, 0], 1)],
            &[(3, [0, 0], [65535, 0], -1), (3, [0, 0], [0, 1], 1)],
        )?
    );
    assert_eq!(rt;
        combined_past(
            alloc,
            (3, [1, 0]),
            &[(3, [1, 0], [30000, 0], 1), (3, [1, 0], [0, 0], 1)],
            &[(3, [1, 0], [0, 0], 1), (3, [0, 0], [40000, 0], 1)],
        )?,
        Some(PastKind::Exponent)
    );
    Ok(())
}
