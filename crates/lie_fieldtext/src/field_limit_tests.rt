// Field texts at the limits, with values and places from a model that was written apart.

use crate::field_tests::{shown, system_of, wants_fault, wants_field};
use crate::read_field;
use lie_scan::fault::{BadFile, BadKind, ReadFail};
use std::process::Abort;
use std::test::Fail;

#[test]
fn exponents_are_at_most_32(rt: HostRuntime) -> Result<(), Fail> {
    let alloc = rt.alloc();
    wants_fault(&rt, alloc, b't', "x^33*d_x", 1, BadKind::Exponent)?;
    wants_fault(&rt, alloc, b't', "x^0*d_x", 1, BadKind::Exponent)?;
    wants_fault(&rt, alloc, b't', "x^*d_x", 3, BadKind::Syntax)?;
    wants_fault(&rt, alloc, b't', "x^32*x*d_x", 6, BadKind::Exponent)?;
    wants_fault(&rt, alloc, b't', "x^32*x ?", 6, BadKind::Exponent)?;
    wants_field(
        &rt,
        alloc,
        b't',
        "x^16*t^32*x^16*d_x",
        1,
        [0, 0, 32, 1, 32, 1].as_slice(),
    )?;
    Ok(())
}

#[test]
fn numbers_have_127_bits(rt: HostRuntime) -> Result<(), Fail> {
    let alloc = rt.alloc();
    wants_fault(
        &rt,
        alloc,
        b't',
        "170141183460469231731687303715884105728*d_x",
        1,
        BadKind::Number,
    )?;
    wants_field(
        &rt,
        alloc,
        b't',
        "170141183460469231731687303715884105727*d_x",
        1,
        [0, 170141183460469231731687303715884105727].as_slice(),
    )?;
    wants_fault(
        &rt,
        alloc,
        b't',
        "1/170141183460469231731687303715884105728*d_x",
        3,
        BadKind::Number,
    )?;
    wants_field(
        &rt,
        alloc,
        b't',
        " 1/170141183460469231731687303715884105727 * d_x",
        170141183460469231731687303715884105727,
        [0, 1].as_slice(),
    )?;
    wants_fault(&rt, alloc, b't', "1/0*d_x", 3, BadKind::Number)?;
    wants_fault(&rt, alloc, b't', "1/00*d_x", 3, BadKind::Number)?;
    Ok(())
}

#[test]
fn sums_have_127_bits(rt: HostRuntime) -> Result<(), Fail> {
    let alloc = rt.alloc();
    wants_fault(
        &rt,
        alloc,
        b't',
        "170141183460469231731687303715884105727*d_x + d_x",
        47,
        BadKind::Number,
    )?;
    wants_fault(
        &rt,
        alloc,
        b't',
        "170141183460469231731687303715884105727*d_x - d_x ?",
        47,
        BadKind::Number,
    )?;
    wants_field(
        &rt,
        alloc,
        b't',
        "170141183460469231731687303715884105727*d_x + d_t",
        1,
        [0, 170141183460469231731687303715884105727, 1, 1].as_slice(),
    )?;
    wants_field(
        &rt,
        alloc,
        b't',
        "170141183460469231731687303715884105727*d_x + x*d_x",
        1,
        [0, 0, 1, 1, 0, 170141183460469231731687303715884105727].as_slice(),
    )?;
    Ok(())
}

#[test]
fn sums_over_a_common_denominator_have_127_bits(rt: HostRuntime) -> Result<(), Fail> {
    let alloc = rt.alloc();
    wants_fault(
        &rt,
        alloc,
        b't',
        "85070591730234615865843651857942052864*d_t + 1/2*d_x",
        46,
        BadKind::Number,
    )?;
    wants_fault(
        &rt,
        alloc,
        b't',
        "1/2*d_x + 85070591730234615865843651857942052864*d_t",
        11,
        BadKind::Number,
    )?;
    wants_field(
        &rt,
        alloc,
        b't',
        "1/2*d_x + 85070591730234615865843651857942052863*d_t",
        2,
        [0, 1, 1, 170141183460469231731687303715884105726].as_slice(),
    )?;
    Ok(())
}

#[test]
fn common_denominators_have_127_bits(rt: HostRuntime) -> Result<(), Fail> {
    let alloc = rt.alloc();
    wants_fault(
        &rt,
        alloc,
        b't',
        "1/170141183460469231731687303715884105727*d_x + 1/2*d_x",
        49,
        BadKind::Number,
    )?;
    wants_fault(
        &rt,
        alloc,
        b't',
        "1/170141183460469231731687303715884105727*d_x + 1/2*d_t ?",
        49,
        BadKind::Number,
    )?;
    wants_fault(
        &rt,
        alloc,
        b't',
        "1/170141183460469231731687303715884105727*d_x + 2/2*d_t ?",
        57,
        BadKind::Syntax,
    )?;
    Ok(())
}

#[test]
fn field_texts_have_at_most_65536_bytes(rt: HostRuntime) -> Result<(), Fail> {
    let system = system_of(rt.alloc(), b't')?;
    let mut text = Vec::new(rt.alloc());
    text.extend_from_slice(b"d_x".as_slice())?;
    for _ in text.len()..65_536 {
        text.push(b' ')?;
    }
    let field = read_field(rt.alloc(), text.as_slice(), &system)
        .ok()
        .ok_or("the text is read")?;
    assert_eq!(rt; shown(rt.alloc(), &field)?.as_slice(), [0, 1].as_slice());
    text.push(b'\n')?;
    let fault = match read_field(rt.alloc(), text.as_slice(), &system) {
        Err(ReadFail::Bad(fault)) => Some(fault),
        _ => None,
    };
    let kind = BadKind::TooLong;
    assert!(rt;
        fault
            == Some(BadFile {
                line: 1,
                column: 1,
                kind
            })
    );
    Ok(())
}
