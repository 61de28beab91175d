// An unknown replaced by a form over a number: values, and limits that are passed. The unknowns f1, f2, f3 and f4 depend on x, y and u,
// on x and y, on u, and on nothing.
ghost use Rattle.std.specs.Prelude.{◌≡◌, pos, unsigned_abs};

use crate::test_forms::{Triple, are_forms, form, forms, is_form, t};
use crate::{replace, replace_in_all};
use lie_bytes::NoMemory;
use lie_jet::Der;
use lie_lin::{LinEq, Unknown, of_triples};
use lie_ring::{Mono, PastKind, PolyFail, Ring, Whole};
use std::alloc::Global;
use std::test::Fail;

/// No exponents, or no counts.
const NONE: [u32; 3] = [0; 3];

/// An unknown itself.
const ITSELF: [u8; 3] = [0; 3];

/// 2^126.
const HALF: i128 = 1 << 126;

fn unknowns() -> [Unknown; 4] {
    [
        Unknown { number: 1, vars: 7 },
        Unknown { number: 2, vars: 3 },
        Unknown { number: 3, vars: 4 },
        Unknown { number: 4, vars: 0 },
    ]
}

/// Whether the form becomes the sum of the last triples, where the other form over the number is put in for f1.
fn becomes(
    alloc: Global,
    eq: &[Triple],
    other: &[Triple],
    divisor: i128,
    wanted: &[Triple],
) -> Result<bool, NoMemory>
    requires { divisor ≡ pos (unsigned_abs divisor) }
{
    let eq = form(alloc, eq)?;
    let other = form(alloc, other)?;
    match Whole::new(divisor) {
        Some(divisor) => match replace(alloc, &eq, &unknowns(), 1, &other, divisor) {
            Ok(made) => is_form(alloc, &made, wanted),
            Err(_) => Ok(false),
        },
        None => Ok(false),
    }
}

/// Whether the replacement is past a limit of this kind.
fn is_past(
    alloc: Global,
    eq: &[Triple],
    other: &[Triple],
    divisor: i128,
    kind: PastKind,
) -> Result<bool, NoMemory>
    requires { divisor ≡ pos (unsigned_abs divisor) }
{
    let eq = form(alloc, eq)?;
    let other = form(alloc, other)?;
    match Whole::new(divisor) {
        Some(divisor) => match replace(alloc, &eq, &unknowns(), 1, &other, divisor) {
            Err(PolyFail::Past(told)) => Ok(told == kind),
            _ => Ok(false),
        },
        None => Ok(false),
    }
}

#[test]
fn unknown_is_replaced(rt: HostRuntime) -> Result<(), Fail> {
    let alloc = rt.alloc();
    let made = becomes(
        alloc,
        &[t(3, NONE, 1, ITSELF), t(1, [1, 0, 0], 2, [1, 0, 0])],
        &[t(2, [1, 0, 0], 2, ITSELF)],
        1,
        &[t(1, [1, 0, 0], 2, [1, 0, 0]), t(6, [1, 0, 0], 2, ITSELF)],
    );
    assert!(rt; made.map_err(|_| "memory")?);
    let made = becomes(
        alloc,
        &[
            t(3, NONE, 1, ITSELF),
            t(1, [1, 0, 0], 2, [1, 0, 0]),
            t(-1, NONE, 4, ITSELF),
        ],
        &[t(1, [0, 1, 0], 2, ITSELF), t(-4, NONE, 4, ITSELF)],
        5,
        &[
            t(5, [1, 0, 0], 2, [1, 0, 0]),
            t(-17, NONE, 4, ITSELF),
            t(3, [0, 1, 0], 2, ITSELF),
        ],
    );
    assert!(rt; made.map_err(|_| "memory")?);
    let made = becomes(
        alloc,
        &[t(1, NONE, 2, ITSELF), t(1, [1, 0, 0], 1, ITSELF)],
        &[],
        4,
        &[t(4, NONE, 2, ITSELF)],
    );
    assert!(rt; made.map_err(|_| "memory")?);
    let made = becomes(
        alloc,
        &[t(1, NONE, 1, [1, 0, 0]), t(-1, NONE, 2, [1, 0, 0])],
        &[t(1, NONE, 2, ITSELF)],
        1,
        &[],
    );
    assert!(rt; made.map_err(|_| "memory")?);
    Ok(())
}

#[test]
fn derivatives_of_the_unknown_are_replaced(rt: HostRuntime) -> Result<(), Fail> {
    let alloc = rt.alloc();
    let made = becomes(
        alloc,
        &[t(1, NONE, 1, [1, 0, 0]), t(-1, NONE, 3, ITSELF)],
        &[t(1, [2, 0, 0], 2, ITSELF)],
        1,
        &[
            t(1, [2, 0, 0], 2, [1, 0, 0]),
            t(-1, NONE, 3, ITSELF),
            t(2, [1, 0, 0], 2, ITSELF),
        ],
    );
    assert!(rt; made.map_err(|_| "memory")?);
    let made = becomes(
        alloc,
        &[t(1, NONE, 1, [0, 0, 1])],
        &[t(2, [0, 0, 1], 2, ITSELF)],
        3,
        &[t(2, NONE, 2, ITSELF)],
    );
    assert!(rt; made.map_err(|_| "memory")?);
    let made = becomes(
        alloc,
        &[t(1, NONE, 1, [0, 0, 2]), t(2, NONE, 3, [0, 0, 1])],
        &[t(1, [0, 0, 1], 2, ITSELF)],
        3,
        &[t(6, NONE, 3, [0, 0, 1])],
    );
    assert!(rt; made.map_err(|_| "memory")?);
    let made = becomes(
        alloc,
        &[t(1, NONE, 1, [2, 1, 1]), t(1, [0, 0, 1], 1, ITSELF)],
        &[t(1, [1, 0, 2], 2, ITSELF), t(1, [2, 1, 0], 3, ITSELF)],
        2,
        &[
            t(2, [1, 0, 1], 2, [2, 1, 0]),
            t(4, [0, 0, 1], 2, [1, 1, 0]),
            t(2, NONE, 3, [0, 0, 1]),
            t(1, [2, 1, 1], 3, ITSELF),
            t(1, [1, 0, 3], 2, ITSELF),
        ],
    );
    assert!(rt; made.map_err(|_| "memory")?);
    Ok(())
}

// What is lost by further derivatives is past no limit.
#[test]
fn lost_terms_are_within_the_limits(rt: HostRuntime) -> Result<(), Fail> {
    let alloc = rt.alloc();
    let made = becomes(
        alloc,
        &[t(1, NONE, 1, [4, 0, 0]), t(1, NONE, 4, ITSELF)],
        &[t(HALF, [3, 0, 0], 3, ITSELF)],
        1,
        &[t(1, NONE, 4, ITSELF)],
    );
    assert!(rt; made.map_err(|_| "memory")?);
    let made = becomes(
        alloc,
        &[t(1, NONE, 1, [3, 1, 0]), t(1, NONE, 4, ITSELF)],
        &[t(HALF, [2, 1, 0], 3, ITSELF), t(1, [3, 1, 0], 3, ITSELF)],
        1,
        &[t(1, NONE, 4, ITSELF), t(6, NONE, 3, ITSELF)],
    );
    assert!(rt; made.map_err(|_| "memory")?);
    let made = becomes(
        alloc,
        &[t(1, [65534, 0, 0], 1, ITSELF)],
        &[t(1, [1, 0, 0], 2, ITSELF)],
        1,
        &[t(1, [65535, 0, 0], 2, ITSELF)],
    );
    assert!(rt; made.map_err(|_| "memory")?);
    let made = becomes(
        alloc,
        &[t(1, NONE, 1, [63, 0, 0])],
        &[t(1, NONE, 2, [1, 0, 0])],
        1,
        &[t(1, NONE, 2, [64, 0, 0])],
    );
    assert!(rt; made.map_err(|_| "memory")?);
    Ok(())
}

#[test]
fn limits_are_told(rt: HostRuntime) -> Result<(), Fail> {
    let alloc = rt.alloc();
    // The true sum is 0.
    let past = is_past(
        alloc,
        &[t(HALF, NONE, 1, ITSELF), t(-HALF, NONE, 2, ITSELF)],
        &[t(1, NONE, 2, ITSELF)],
        1,
        PastKind::Coefficient,
    );
    assert!(rt; past.map_err(|_| "memory")?);
    let past = is_past(
        alloc,
        &[t(1, NONE, 1, ITSELF), t(2, NONE, 2, ITSELF)],
        &[t(1, NONE, 4, ITSELF)],
        HALF,
        PastKind::Coefficient,
    );
    assert!(rt; past.map_err(|_| "memory")?);
    let past = is_past(
        alloc,
        &[t(1, NONE, 1, [3, 0, 0])],
        &[t(HALF, [3, 0, 0], 3, ITSELF)],
        1,
        PastKind::Coefficient,
    );
    assert!(rt; past.map_err(|_| "memory")?);
    let past = is_past(
        alloc,
        &[t(1, [65535, 0, 0], 1, ITSELF)],
        &[t(1, [1, 0, 0], 2, ITSELF)],
        1,
        PastKind::Exponent,
    );
    assert!(rt; past.map_err(|_| "memory")?);
    let past = is_past(
        alloc,
        &[t(1, NONE, 1, [64, 0, 0])],
        &[t(1, NONE, 2, [1, 0, 0])],
        1,
        PastKind::Order,
    );
    assert!(rt; past.map_err(|_| "memory")?);
    Ok(())
}

/// Whether the forms become others, where a form over the number is put in for f1 in all of them.
fn all_become(
    alloc: Global,
    all: &[LinEq],
    other: &[Triple],
    divisor: i128,
    wanted: &[LinEq],
) -> Result<bool, NoMemory>
    requires { divisor ≡ pos (unsigned_abs divisor) }
{
    let other = form(alloc, other)?;
    match Whole::new(divisor) {
        Some(divisor) => match replace_in_all(alloc, all, &unknowns(), 1, &other, divisor) {
            Ok(made) => are_forms(alloc, made.as_slice(), wanted),
            Err(_) => Ok(false),
        },
        None => Ok(false),
    }
}

/// Whether the replacement in all forms is past a limit of this kind.
fn all_are_past(
    alloc: Global,
    all: &[LinEq],
    other: &LinEq,
    kind: PastKind,
) -> Result<bool, NoMemory> {
    match replace_in_all(alloc, all, &unknowns(), 1, other, Whole::one()) {
        Err(PolyFail::Past(told)) => Ok(told == kind),
        _ => Ok(false),
    }
}

#[test]
fn unknown_is_replaced_in_all(rt: HostRuntime) -> Result<(), Fail> {
    let alloc = rt.alloc();
    let f1 = t(1, NONE, 1, ITSELF);
    let f2 = t(1, NONE, 2, ITSELF);
    let other = [t(1, [1, 0, 0], 4, ITSELF), t(2, NONE, 3, ITSELF)];
    let all = forms(alloc, &[f1], &[f2], &[]).map_err(|_| "memory")?;
    let wanted = forms(alloc, &other, &[f2], &[]).map_err(|_| "memory")?;
    let made = all_become(alloc, all.as_slice(), &other, 1, wanted.as_slice());
    assert!(rt; made.map_err(|_| "memory")?);
    let all = forms(alloc, &[f1], &[f2], &[t(-3, [0, 0, 1], 4, ITSELF)]).map_err(|_| "memory")?;
    let wanted = forms(
        alloc,
        &other,
        &[t(6, NONE, 2, ITSELF)],
        &[t(-18, [0, 0, 1], 4, ITSELF)],
    );
    let wanted = wanted.map_err(|_| "memory")?;
    let made = all_become(alloc, all.as_slice(), &other, 6, wanted.as_slice());
    assert!(rt; made.map_err(|_| "memory")?);
    Ok(())
}

#[test]
fn derivatives_are_replaced_in_all(rt: HostRuntime) -> Result<(), Fail> {
    let alloc = rt.alloc();
    let f1 = t(1, NONE, 1, ITSELF);
    let all = forms(
        alloc,
        &[t(2, [1, 0, 0], 1, [0, 1, 0]), t(1, NONE, 4, ITSELF)],
        &[f1, t(-1, NONE, 2, ITSELF)],
        &[t(5, NONE, 3, ITSELF)],
    );
    let wanted = forms(
        alloc,
        &[
            t(2, [1, 1, 0], 2, [0, 1, 0]),
            t(2, NONE, 4, ITSELF),
            t(2, [1, 0, 0], 2, ITSELF),
        ],
        &[t(1, [0, 1, 0], 2, ITSELF), t(-2, NONE, 2, ITSELF)],
        &[t(10, NONE, 3, ITSELF)],
    );
    let all = all.map_err(|_| "memory")?;
    let wanted = wanted.map_err(|_| "memory")?;
    let other = [t(1, [0, 1, 0], 2, ITSELF)];
    let made = all_become(alloc, all.as_slice(), &other, 2, wanted.as_slice());
    assert!(rt; made.map_err(|_| "memory")?);
    let all = forms(
        alloc,
        &[f1],
        &[t(1, NONE, 1, [0, 0, 1])],
        &[t(1, [1, 1, 1], 1, [1, 1, 1])],
    );
    let wanted = forms(
        alloc,
        &[t(4, [1, 1, 0], 3, ITSELF)],
        &[t(4, [1, 1, 0], 3, [0, 0, 1])],
        &[t(4, [1, 1, 1], 3, [0, 0, 1])],
    );
    let all = all.map_err(|_| "memory")?;
    let wanted = wanted.map_err(|_| "memory")?;
    let other = [t(4, [1, 1, 0], 3, ITSELF)];
    let made = all_become(alloc, all.as_slice(), &other, 1, wanted.as_slice());
    assert!(rt; made.map_err(|_| "memory")?);
    Ok(())
}

/// The sum of the powers of a variable from the first one on, with exponents below `end`, each times an unknown.
fn powers(alloc: Global, variable: u32, end: u32, unknown: u32) -> Result<LinEq, NoMemory> {
    let mut list = Vec::new(alloc);
    let der = Der {
        unknown,
        counts: [0; 8],
    };
    for exponent in 1..end {
        if let Some(mono) = Mono::new(alloc, &[(variable, exponent)])? {
            list.push((der, mono, Whole::one()))?;
        }
    }
    match of_triples(alloc, list.as_slice()) {
        Ok(form) => Ok(form),
        Err(_) => Err(NoMemory),
    }
}

#[test]
fn limits_of_all_are_told(rt: HostRuntime) -> Result<(), Fail> {
    let alloc = rt.alloc();
    let f1 = t(1, NONE, 1, ITSELF);
    let f2 = form(alloc, &[t(1, NONE, 2, ITSELF)]).map_err(|_| "memory")?;
    let all = forms(
        alloc,
        &[f1],
        &[t(HALF, NONE, 1, ITSELF), t(-HALF, NONE, 2, ITSELF)],
        &[],
    );
    let past = all_are_past(
        alloc,
        all.map_err(|_| "memory")?.as_slice(),
        &f2,
        PastKind::Coefficient,
    );
    assert!(rt; past.map_err(|_| "memory")?);
    let raised = form(alloc, &[t(1, [1, 0, 0], 2, ITSELF)]).map_err(|_| "memory")?;
    let all = forms(alloc, &[], &[f1], &[t(1, [65535, 0, 0], 1, ITSELF)]);
    let past = all_are_past(
        alloc,
        all.map_err(|_| "memory")?.as_slice(),
        &raised,
        PastKind::Exponent,
    );
    assert!(rt; past.map_err(|_| "memory")?);
    let derived = form(alloc, &[t(1, NONE, 2, [1, 0, 0])]).map_err(|_| "memory")?;
    let all = forms(alloc, &[t(1, NONE, 1, [64, 0, 0])], &[f1], &[]);
    let past = all_are_past(
        alloc,
        all.map_err(|_| "memory")?.as_slice(),
        &derived,
        PastKind::Order,
    );
    assert!(rt; past.map_err(|_| "memory")?);
    Ok(())
}

// Forms of 500,000 and 501,000 triples, each within the limit, are past it together.
#[test]
fn triples_of_all_are_counted_together(rt: HostRuntime) -> Result<(), Fail> {
    let alloc = rt.alloc();
    let other = powers(alloc, 1, 1001, 2).map_err(|_| "memory")?;
    let mut all = Vec::new(alloc);
    for end in [501, 502] {
        let form = powers(alloc, 0, end, 1).map_err(|_| "memory")?;
        all.push(form).map_err(|_| "memory")?;
    }
    let past = all_are_past(alloc, all.as_slice(), &other, PastKind::Terms);
    assert!(rt; past.map_err(|_| "memory")?);
    Ok(())
}
