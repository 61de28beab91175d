// Field texts and their faults, with values and places from a model that was written apart.
ghost use Rattle.std.specs.Prelude.{◌≤◌, ◌<◌};

use crate::read_field;
use lie_bytes::{NoMemory, Text};
use lie_jet::{Field, JetPoly, Space};
use lie_ring::Polynomial;
use lie_scan::fault::{BadFile, BadKind, ReadFail};
use lie_system::{Equation, System};
use std::alloc::Global;
use std::process::Abort;
use std::test::Fail;

// No terms.
const NOTHING: [i128; 0] = [];

// The system of the equation `0 = 0`, with the names `x`, a second one before `u`, and `u` for the dependent variable.
pub fn system_of(alloc: Global, second: u8) -> Result<System, Fail>
    requires letter { 97 ≤ second }
    requires before { second < 117 }
{
    let mut equations = Vec::new(alloc);
    equations.push(Equation {
        lead: None,
        diff: JetPoly::zero(alloc),
    })?;
    match Text::of(alloc, [b'x', second, b'u'].as_slice())? {
        Some(names) => Ok(System {
            space: Space { p: 2, q: 1 },
            names,
            equations,
        }),
        None => Err(Fail::from("the names are no text")),
    }
}

// The terms of a field: for each the place, each variable and its exponent, and the number.
pub fn shown(alloc: Global, field: &Field) -> Result<Vec<i128>, NoMemory> {
    let mut list = Vec::new(alloc);
    for (place, part) in field.parts().iter().enumerate() {
        let terms = part.terms(alloc)?;
        for term in terms.as_slice() {
            list.push(place as i128)?;
            for pair in term.0.pairs() {
                list.push(i128::from(pair.0))?;
                list.push(i128::from(pair.1))?;
            }
            list.push(term.1.get())?;
        }
    }
    Ok(list)
}

// The text is that of a field over `den` with these terms.
pub fn wants_field(
    rt: &impl Abort,
    alloc: Global,
    second: u8,
    text: &str,
    den: u128,
    terms: &[i128],
) -> Result<(), Fail>
    requires letter { 97 ≤ second }
    requires before { second < 117 }
{
    let system = system_of(alloc, second)?;
    let field = read_field(alloc, text.as_bytes(), &system)
        .ok()
        .ok_or("the text is read")?;
    assert_eq!(rt; field.den(), den);
    assert_eq!(rt; field.parts().len(), 3);
    assert_eq!(rt; shown(alloc, &field)?.as_slice(), terms);
    Ok(())
}

// The text has this fault.
pub fn wants_fault(
    rt: &impl Abort,
    alloc: Global,
    second: u8,
    text: &str,
    column: u32,
    kind: BadKind,
) -> Result<(), Fail>
    requires letter { 97 ≤ second }
    requires before { second < 117 }
{
    let system = system_of(alloc, second)?;
    let fault = match read_field(alloc, text.as_bytes(), &system) {
        Err(ReadFail::Bad(fault)) => Some(fault),
        _ => None,
    };
    assert!(rt;
        fault
            == Some(BadFile {
                line: 1,
                column,
                kind
            })
    );
    Ok(())
}

#[test]
fn fields_are_sums_of_their_terms(rt: HostRuntime) -> Result<(), Fail> {
    let alloc = rt.alloc();
    wants_field(
        &rt,
        alloc,
        b't',
        "x*d_x + 3*t*d_t - 2*u*d_u",
        1,
        [0, 0, 1, 1, 1, 1, 1, 3, 2, 2, 1, -2].as_slice(),
    )?;
    wants_field(
        &rt,
        alloc,
        b't',
        "1/2*x*d_x + t*d_t - 1/2*u*d_u",
        2,
        [0, 0, 1, 1, 1, 1, 1, 2, 2, 2, 1, -1].as_slice(),
    )?;
    wants_field(
        &rt,
        alloc,
        b't',
        "t*d_x + d_u",
        1,
        [0, 1, 1, 1, 2, 1].as_slice(),
    )?;
    wants_field(
        &rt,
        alloc,
        b't',
        "-x^2*u*d_u + 3/7*x*t*d_x",
        7,
        [0, 0, 1, 1, 1, 3, 2, 0, 2, 2, 1, -7].as_slice(),
    )?;
    Ok(())
}

#[test]
fn fields_can_be_zero(rt: HostRuntime) -> Result<(), Fail> {
    let alloc = rt.alloc();
    wants_field(&rt, alloc, b't', "0", 1, NOTHING.as_slice())?;
    wants_field(&rt, alloc, b't', " 0\t", 1, NOTHING.as_slice())?;
    wants_field(&rt, alloc, b't', "0/5*d_x", 1, NOTHING.as_slice())?;
    wants_field(&rt, alloc, b't', "+x*d_x - x*d_x", 1, NOTHING.as_slice())?;
    Ok(())
}

#[test]
fn fields_are_in_lowest_terms(rt: HostRuntime) -> Result<(), Fail> {
    let alloc = rt.alloc();
    wants_field(&rt, alloc, b't', "2/4*d_x", 2, [0, 1].as_slice())?;
    wants_field(&rt, alloc, b't', "1/2*d_x + 1/2*d_x", 1, [0, 1].as_slice())?;
    wants_field(
        &rt,
        alloc,
        b't',
        "1/2*d_x + 1/2*d_x + 2*u*d_t",
        1,
        [0, 1, 1, 2, 1, 2].as_slice(),
    )?;
    wants_field(
        &rt,
        alloc,
        b't',
        "2*d_x + 4*d_t",
        1,
        [0, 2, 1, 4].as_slice(),
    )?;
    wants_field(
        &rt,
        alloc,
        b't',
        "1/6*x*d_x - 1/4*t*d_t + 0*u*d_u",
        12,
        [0, 0, 1, 2, 1, 1, 1, -3].as_slice(),
    )?;
    Ok(())
}

#[test]
fn base_vectors_are_no_variables(rt: HostRuntime) -> Result<(), Fail> {
    let alloc = rt.alloc();
    wants_field(&rt, alloc, b'd', "d*d_x", 1, [0, 1, 1, 1].as_slice())?;
    wants_field(&rt, alloc, b'd', "d_d", 1, [1, 1].as_slice())?;
    wants_field(&rt, alloc, b'd', "d^32*d_d", 1, [1, 1, 32, 1].as_slice())?;
    wants_fault(&rt, alloc, b'd', "d^32*d*d_d", 6, BadKind::Exponent)?;
    wants_fault(&rt, alloc, b'd', "d*x", 4, BadKind::Syntax)?;
    wants_fault(&rt, alloc, b'd', "d_x*x", 4, BadKind::Syntax)?;
    wants_fault(&rt, alloc, b'd', "d_", 3, BadKind::Syntax)?;
    wants_fault(&rt, alloc, b'd', "d _x", 3, BadKind::Syntax)?;
    wants_fault(&rt, alloc, b't', "d_", 3, BadKind::Syntax)?;
    wants_fault(&rt, alloc, b't', "x*d_ ", 5, BadKind::Syntax)?;
    wants_fault(&rt, alloc, b't', "d_9", 3, BadKind::Syntax)?;
    wants_fault(&rt, alloc, b't', "d*d_x", 1, BadKind::UnknownName)?;
    wants_fault(&rt, alloc, b't', "dd_x", 1, BadKind::UnknownName)?;
    Ok(())
}

#[test]
fn words_are_names(rt: HostRuntime) -> Result<(), Fail> {
    let alloc = rt.alloc();
    wants_fault(&rt, alloc, b't', "d_w", 1, BadKind::UnknownName)?;
    wants_fault(&rt, alloc, b't', "d_xx", 1, BadKind::UnknownName)?;
    wants_fault(&rt, alloc, b't', "x*d_w", 3, BadKind::UnknownName)?;
    wants_fault(&rt, alloc, b't', "w_x*d_x", 1, BadKind::UnknownName)?;
    wants_fault(&rt, alloc, b't', "w*d_x", 1, BadKind::UnknownName)?;
    wants_fault(&rt, alloc, b't', "xt*d_x", 1, BadKind::UnknownName)?;
    wants_fault(&rt, alloc, b't', "x_t*d_x", 2, BadKind::Syntax)?;
    wants_fault(&rt, alloc, b't', "2*u_x*d_x", 4, BadKind::Syntax)?;
    wants_fault(&rt, alloc, b't', "x^2_t", 4, BadKind::Syntax)?;
    Ok(())
}

#[test]
fn tokens_come_in_their_order(rt: HostRuntime) -> Result<(), Fail> {
    let alloc = rt.alloc();
    wants_field(
        &rt,
        alloc,
        b't',
        "1/ 2 * x * d_x",
        2,
        [0, 0, 1, 1].as_slice(),
    )?;
    wants_fault(&rt, alloc, b't', "00", 3, BadKind::Syntax)?;
    wants_fault(&rt, alloc, b't', "+0", 3, BadKind::Syntax)?;
    wants_fault(&rt, alloc, b't', "0 + d_x", 3, BadKind::Syntax)?;
    wants_fault(&rt, alloc, b't', "", 1, BadKind::Syntax)?;
    wants_fault(&rt, alloc, b't', "  ", 3, BadKind::Syntax)?;
    wants_fault(&rt, alloc, b't', "-", 2, BadKind::Syntax)?;
    wants_fault(&rt, alloc, b't', "x", 2, BadKind::Syntax)?;
    wants_fault(&rt, alloc, b't', "1/2*x", 6, BadKind::Syntax)?;
    wants_fault(&rt, alloc, b't', "1*", 3, BadKind::Syntax)?;
    wants_fault(&rt, alloc, b't', "1/*d_x", 3, BadKind::Syntax)?;
    wants_fault(&rt, alloc, b't', "1/2/3*d_x", 4, BadKind::Syntax)?;
    wants_fault(&rt, alloc, b't', "1 2*d_x", 3, BadKind::Syntax)?;
    wants_fault(&rt, alloc, b't', "x**d_x", 3, BadKind::Syntax)?;
    wants_fault(&rt, alloc, b't', "2 *-x*d_x", 4, BadKind::Syntax)?;
    wants_fault(&rt, alloc, b't', "u^2*d_u*x", 8, BadKind::Syntax)?;
    wants_fault(&rt, alloc, b't', "d_x d_t", 5, BadKind::Syntax)?;
    wants_fault(&rt, alloc, b't', "d_x # c", 5, BadKind::Syntax)?;
    wants_fault(&rt, alloc, b't', "X*d_x", 1, BadKind::Syntax)?;
    Ok(())
}

#[test]
fn bytes_are_those_of_a_line(rt: HostRuntime) -> Result<(), Fail> {
    let alloc = rt.alloc();
    wants_fault(&rt, alloc, b't', "d_x\n", 4, BadKind::NotAscii)?;
    wants_fault(&rt, alloc, b't', "d_x\r", 4, BadKind::NotAscii)?;
    wants_fault(&rt, alloc, b't', "?\x7f\n", 2, BadKind::NotAscii)?;
    wants_fault(&rt, alloc, b't', "#\n", 2, BadKind::NotAscii)?;
    Ok(())
}
