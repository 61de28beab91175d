// Normal forms: worked values. The variables are x and y; f1 and f2 are functions of both.
ghost use Rattle.std.specs.Prelude.{IfOk};
ghost use Rattle.lie_systems.specs.ValidSystems.{IsFormOf, IsOwned};
ghost use Rattle.lie_jet.specs.Derivatives.{derivative_of};
ghost use Rattle.lie_normal.specs.WorkedValues.{functions, IsTripleOf};

use crate::normal_form;
use lie_bytes::NoMemory;
use lie_jet::Der;
use lie_lin::{LinEq, Unknown, compare_equations, of_triples};
use lie_ring::{Mono, PastKind, PolyFail, Whole};
use std::alloc::Global;
use std::test::Fail;

const FUNCTIONS: [Unknown; 2] = [
    Unknown { number: 1, vars: 3 },
    Unknown { number: 2, vars: 3 },
];

// Whether it is the second function, how often it is derived by x and y, the exponent of x, and a number.
type Row = (bool, [u8; 2], u32, i128);

fn derivative(is_second: bool, by: [u8; 2]) -> Der
    ensures { IsOwned functions (derivative_of result) }
{
    let counts = [by[0], by[1], 0, 0, 0, 0, 0, 0];
    if is_second {
        return Der { unknown: 2, counts };
    }
    Der { unknown: 1, counts }
}

fn triple(alloc: Global, row: &Row) -> Result<(Der, Mono, Whole), NoMemory>
    ensures { IfOk result (λ t. IsTripleOf (derivative_of t.0, t.1, t.2)) }
{
    let der = derivative(row.0, row.1);
    let power = Mono::power(alloc, 0, row.2);
    match Whole::new(row.3) {
        Some(number) => Ok((der, power, number)),
        None => Err(NoMemory),
    }
}

fn form(alloc: Global, rows: &[Row]) -> Result<LinEq, NoMemory>
    ensures { IfOk result (IsFormOf 2 functions) }
{
    let mut list = Vec::new(alloc);
    for row in rows {
        let new = triple(alloc, row)?;
        list.push(new)?;
    }
    match of_triples(alloc, list.as_slice()) {
        Ok(made) => Ok(made),
        Err(_) => Err(NoMemory),
    }
}

fn normal_by(
    alloc: Global,
    rows: &[Row],
    first: &[Row],
    second: &[Row],
) -> Result<Result<LinEq, PolyFail>, NoMemory> {
    let eq = form(alloc, rows)?;
    let first = form(alloc, first)?;
    let second = form(alloc, second)?;
    let list = [first, second];
    Ok(normal_form(alloc, &eq, list.as_slice(), FUNCTIONS.as_slice()))
}

fn normal(
    alloc: Global,
    rows: &[Row],
    first: &[Row],
    second: &[Row],
    expected: &[Row],
) -> Result<bool, Fail> {
    let expected = form(alloc, expected).map_err(|_| "form")?;
    match normal_by(alloc, rows, first, second).map_err(|_| "forms")? {
        Ok(made) => {
            let order = compare_equations(alloc, &made, &expected).map_err(|_| "memory")?;
            Ok(order.is_eq())
        }
        Err(_) => Ok(false),
    }
}

fn normal_past(
    alloc: Global,
    rows: &[Row],
    first: &[Row],
    second: &[Row],
) -> Result<Option<PastKind>, Fail> {
    match normal_by(alloc, rows, first, second).map_err(|_| "forms")? {
        Err(PolyFail::Past(kind)) => Ok(Some(kind)),
        _ => Ok(None),
    }
}

#[test]
fn normal_forms_by_two_equations(rt: HostRuntime) -> Result<(), Fail> {
    let alloc = rt.alloc();
    assert!(rt;
        normal(
            alloc,
            &[(false, [1, 0], 0, 1)],
            &[(false, [1, 0], 0, 1), (false, [0, 0], 0, 1)],
            &[(true, [1, 0], 0, 1)],
            &[(false, [0, 0], 0, 1)],
        )?
    );
    assert!(rt;
        normal(
            alloc,
            &[(false, [2, 0], 0, 1), (false, [0, 1], 0, 1)],
            &[(false, [1, 0], 0, 1), (false, [0, 0], 0, -1)],
            &[(true, [0, 0], 0, 1)],
            &[(false, [0, 1], 0, 1), (false, [0, 0], 0, 1)],
        )?
    );
    assert!(rt;
        normal(
            alloc,
            &[
                (false, [2, 1], 0, 1),
                (false, [0, 2], 0, 1),
                (true, [0, 0], 0, 1)
            ],
            &[(false, [1, 0], 0, 1), (false, [0, 1], 0, -1)],
            &[(false, [0, 1], 0, 1)],
            &[(true, [0, 0], 0, 1)],
        )?
    );
    assert!(rt;
        normal(
            alloc,
            &[(false, [1, 1], 0, 1), (true, [0, 0], 0, 1)],
            &[(false, [1, 0], 0, 1), (false, [0, 0], 0, 1)],
            &[(false, [0, 1], 0, 1), (false, [0, 0], 0, 2)],
            &[(true, [0, 0], 0, 1), (false, [0, 0], 0, 2)],
        )?
    );
    assert!(rt;
        normal(
            alloc,
            &[(false, [1, 1], 0, 1), (true, [0, 0], 0, 1)],
            &[(false, [0, 1], 0, 1), (false, [0, 0], 0, 3)],
            &[(false, [1, 0], 0, 1), (true, [0, 0], 0, 1)],
            &[(true, [0, 0], 0, 1)],
        )?
    );
    assert!(rt;
        normal(
            alloc,
            &[(false, [1, 1], 0, 1), (true, [0, 0], 0, 1)],
            &[(false, [1, 0], 0, 1), (true, [0, 0], 0, 1)],
            &[(false, [0, 1], 0, 1), (false, [0, 0], 0, 3)],
            &[(true, [0, 1], 0, 1), (true, [0, 0], 0, -1)],
        )?
    );
    assert!(rt;
        normal(
            alloc,
            &[(false, [2, 0], 0, 1), (true, [1, 0], 0, 1)],
            &[(false, [1, 0], 1, 1), (false, [0, 0], 0, -1)],
            &[(true, [0, 1], 0, 1)],
            &[(true, [1, 0], 0, 1)],
        )?
    );
    assert!(rt;
        normal(
            alloc,
            &[(true, [0, 0], 0, 2), (false, [0, 0], 0, 4)],
            &[(false, [1, 0], 0, 1)],
            &[(true, [1, 0], 0, 1)],
            &[(true, [0, 0], 0, 2), (false, [0, 0], 0, 4)],
        )?
    );
    assert!(rt;
        normal(
            alloc,
            &[],
            &[(false, [1, 0], 0, 1)],
            &[(true, [1, 0], 0, 1)],
            &[],
        )?
    );
    assert!(rt;
        normal(
            alloc,
            &[
                (true, [2, 0], 1, 1),
                (false, [2, 0], 2, -4),
                (false, [0, 0], 0, 3)
            ],
            &[(false, [1, 0], 0, 2), (false, [0, 0], 1, 1)],
            &[(true, [2, 0], 1, 3), (true, [0, 0], 0, 1)],
            &[
                (true, [0, 0], 0, 1),
                (false, [0, 0], 4, 3),
                (false, [0, 0], 2, -6),
                (false, [0, 0], 0, -9)
            ],
        )?
    );
    assert_eq!(rt;
        normal_past(
            alloc,
            &[(false, [2, 0], 0, 1), (false, [0, 0], 0, i128::MAX)],
            &[(false, [1, 0], 0, 2), (false, [0, 0], 0, 1)],
            &[(true, [1, 0], 0, 1)],
        )?,
        Some(PastKind::Coefficient)
    );
    assert_eq!(rt;
        normal_past(
            alloc,
            &[(false, [2, 0], 0, 1)],
            &[(false, [1, 0], 2, i128::MAX), (false, [0, 0], 0, 1)],
            &[(true, [1, 0], 0, 1)],
        )?,
        Some(PastKind::Coefficient)
    );
    assert_eq!(rt;
        normal_past(
            alloc,
            &[(false, [1, 0], 1, 1), (true, [0, 0], 0, 1)],
            &[(false, [1, 0], 0, 1), (false, [0, 0], 65535, 1)],
            &[(true, [1, 0], 0, 1)],
        )?,
        Some(PastKind::Exponent)
    );
    Ok(())
}
