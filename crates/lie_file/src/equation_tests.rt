// Faults of equations, with columns from a model that was written apart.

use crate::tests::{file_of, wants_fault};
use lie_bytes::NoMemory;
use lie_scan::fault::BadKind;
use std::alloc::Global;
use std::process::Abort;

// A file with this equation.
fn with_equation(alloc: Global, equation: &[u8]) -> Result<Vec<u8>, NoMemory> {
    let mut text = file_of(alloc, b"eq ".as_slice(), 1)?;
    text.extend_from_slice(equation)?;
    text.extend_from_slice(b"\nend\n".as_slice())?;
    Ok(text)
}

// A file with this equation has this fault, in the line of the equation.
fn wants_column(rt: &impl Abort, alloc: Global, equation: &[u8], column: u32, kind: BadKind) {
    if let Ok(text) = with_equation(alloc, equation) {
        wants_fault(rt, alloc, text.as_slice(), 4, column, kind);
    }
}

#[test]
fn unknown_names_have_their_columns(rt: HostRuntime) {
    let alloc = rt.alloc();
    wants_column(&rt, alloc, b"u_x = w".as_slice(), 10, BadKind::UnknownName);
    wants_column(&rt, alloc, b"x_t = 0".as_slice(), 4, BadKind::UnknownName);
    wants_column(&rt, alloc, b"u_xw = 0".as_slice(), 4, BadKind::UnknownName);
    wants_column(&rt, alloc, b"uv = 0".as_slice(), 4, BadKind::UnknownName);
    wants_column(&rt, alloc, b"u_u = 0".as_slice(), 4, BadKind::UnknownName);
    wants_column(
        &rt,
        alloc,
        b"u_xxxxxxw = 0".as_slice(),
        4,
        BadKind::UnknownName,
    );
}

#[test]
fn numbers_past_the_limit_have_their_columns(rt: HostRuntime) {
    let alloc = rt.alloc();
    wants_column(
        &rt,
        alloc,
        b"170141183460469231731687303715884105728*u = 0".as_slice(),
        4,
        BadKind::Number,
    );
    wants_column(
        &rt,
        alloc,
        b"u = 0 + 170141183460469231731687303715884105728".as_slice(),
        12,
        BadKind::Number,
    );
    wants_column(
        &rt,
        alloc,
        b"170141183460469231731687303715884105727*u = u".as_slice(),
        48,
        BadKind::Number,
    );
    wants_column(
        &rt,
        alloc,
        b"170141183460469231731687303715884105727*u*x - x*u = 0 ?".as_slice(),
        50,
        BadKind::Number,
    );
    wants_column(
        &rt,
        alloc,
        b"00000000000000000000000000000000000000000009999999999999999999999999999999999999999 = 0".as_slice(),
        4,
        BadKind::Number,
    );
}

#[test]
fn exponents_past_the_limit_have_their_columns(rt: HostRuntime) {
    let alloc = rt.alloc();
    wants_column(&rt, alloc, b"u_x = u^33".as_slice(), 10, BadKind::Exponent);
    wants_column(&rt, alloc, b"u^0 = 0".as_slice(), 4, BadKind::Exponent);
    wants_column(&rt, alloc, b"u^32*u ? = 0".as_slice(), 9, BadKind::Exponent);
    wants_column(
        &rt,
        alloc,
        b"u_x^16*u*u_x^17 = 0".as_slice(),
        13,
        BadKind::Exponent,
    );
    wants_column(
        &rt,
        alloc,
        b"2*x*t^99999999999999999999999999999999999999999 = 0".as_slice(),
        8,
        BadKind::Exponent,
    );
    wants_column(
        &rt,
        alloc,
        b"u_tx = u_xt^33".as_slice(),
        11,
        BadKind::Exponent,
    );
}

#[test]
fn orders_past_the_limit_have_their_columns(rt: HostRuntime) {
    let alloc = rt.alloc();
    wants_column(&rt, alloc, b"u_xxxxxxx = 0".as_slice(), 4, BadKind::Order);
    wants_column(&rt, alloc, b"u = v_ttttttt".as_slice(), 8, BadKind::Order);
    wants_column(
        &rt,
        alloc,
        b"2*u_xtxtxtx^40 = 0".as_slice(),
        6,
        BadKind::Order,
    );
}

#[test]
fn bad_syntax_has_its_column(rt: HostRuntime) {
    let alloc = rt.alloc();
    wants_column(&rt, alloc, b"u_ = 0".as_slice(), 6, BadKind::Syntax);
    wants_column(&rt, alloc, b"w_ = 0".as_slice(), 6, BadKind::Syntax);
    wants_column(&rt, alloc, b"u_x".as_slice(), 7, BadKind::Syntax);
    wants_column(&rt, alloc, b"u_x =".as_slice(), 9, BadKind::Syntax);
    wants_column(&rt, alloc, b"= 0".as_slice(), 4, BadKind::Syntax);
    wants_column(&rt, alloc, b"u_x = 0 0".as_slice(), 12, BadKind::Syntax);
    wants_column(&rt, alloc, b"u_x = 2u".as_slice(), 11, BadKind::Syntax);
    wants_column(&rt, alloc, b"u_x = u*2".as_slice(), 12, BadKind::Syntax);
    wants_column(&rt, alloc, b"u * + v = 0".as_slice(), 8, BadKind::Syntax);
    wants_column(&rt, alloc, b"u^ = 0".as_slice(), 7, BadKind::Syntax);
    wants_column(&rt, alloc, b"-- u = 0".as_slice(), 5, BadKind::Syntax);
    wants_column(&rt, alloc, b"u_x = 0 = 0".as_slice(), 12, BadKind::Syntax);
    wants_column(&rt, alloc, b"".as_slice(), 4, BadKind::Syntax);
    wants_column(&rt, alloc, b"u   # c".as_slice(), 8, BadKind::Syntax);
    wants_column(&rt, alloc, b"x_ = 0".as_slice(), 6, BadKind::Syntax);
    wants_column(&rt, alloc, b"u_x + 2 x = 0".as_slice(), 12, BadKind::Syntax);
    wants_column(&rt, alloc, b"2*u_x^2^3 = 0".as_slice(), 11, BadKind::Syntax);
}
