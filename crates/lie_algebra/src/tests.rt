// Bases of finite systems in the variables x and u, and their closed forms.
use crate::{basis, close_form, finite};
use lie_bytes::NoMemory;
use lie_jet::{Der, Field, JetPoly, Space};
use lie_lin::{LinEq, LinSystem, Unknown, of_triples, triples};
use lie_ring::{Mono, PastKind, PolyFail, Polynomial, Ring, Whole};
use std::alloc::Global;
use std::test::Fail;

/// A number times the unknown with a number, and the exponents of x and u.
#[derive(Clone, Copy)]
struct Term {
    number: i128,
    unknown: u32,
    x: u32,
    u: u32,
}

fn made_term(number: i128, unknown: u32, x: u32, u: u32) -> Term {
    Term {
        number,
        unknown,
        x,
        u,
    }
}

fn form(alloc: Global, terms: &[Term]) -> Result<LinEq, PolyFail> {
    let mut list = Vec::new(alloc);
    for term in terms {
        let der = Der {
            unknown: term.unknown,
            counts: [0; 8],
        };
        let mono = Mono::power(alloc, 0, term.x).times(alloc, &Mono::power(alloc, 1, term.u))?;
        let number = Whole::new(term.number).unwrap_or(Whole::zero());
        list.push((der, mono, number))?;
    }
    of_triples(alloc, list.as_slice())
}

/// The system with unknowns 1 to `count` of the variables whose bits are set, and with these components.
fn system(
    alloc: Global,
    count: u32,
    vars: u8,
    x: &[Term],
    u: &[Term],
) -> Result<Option<LinSystem>, PolyFail> {
    let mut unknowns = Vec::new(alloc);
    for i in 0..count {
        let number = i.saturating_add(1);
        unknowns.push(Unknown { number, vars })?;
    }
    let mut general = Vec::new(alloc);
    general.push(form(alloc, x)?)?;
    general.push(form(alloc, u)?)?;
    let space = Space { p: 1, q: 1 };
    let next = count.saturating_add(1);
    let made = LinSystem::of_parts(alloc, space, unknowns, Vec::new(alloc), general, next)?;
    Ok(made)
}

/// The basis of a system of constants.
fn basis_of(
    alloc: Global,
    count: u32,
    x: &[Term],
    u: &[Term],
) -> Result<Option<Vec<Field>>, PolyFail> {
    let made = system(alloc, count, 0, x, u)?;
    match made {
        Some(made) => found(alloc, &made),
        None => Ok(None),
    }
}

fn found(alloc: Global, system: &LinSystem) -> Result<Option<Vec<Field>>, PolyFail> {
    if !finite(system) {
        return Ok(None);
    }
    let fields = basis(alloc, system)?;
    Ok(Some(fields))
}

/// The closed form of a system of constants.
fn closed(
    alloc: Global,
    count: u32,
    x: &[Term],
    u: &[Term],
) -> Result<Option<LinSystem>, PolyFail> {
    let made = system(alloc, count, 0, x, u)?;
    match made {
        Some(made) => closed_form_of(alloc, &made),
        None => Ok(None),
    }
}

fn closed_form_of(alloc: Global, system: &LinSystem) -> Result<Option<LinSystem>, PolyFail> {
    if !finite(system) {
        return Ok(None);
    }
    let fields = basis(alloc, system)?;
    let made = close_form(alloc, system, fields.as_slice())?;
    Ok(Some(made))
}

/// Whether a polynomial has these numbers with these exponents, in print order.
fn is_part(alloc: Global, part: &JetPoly, wanted: &[Term]) -> Result<bool, NoMemory> {
    let list = part.terms(alloc)?;
    if list.len() != wanted.len() {
        return Ok(false);
    }
    for i in 0..list.len() {
        let (x, u) = (list[i].0.exponent(0), list[i].0.exponent(1));
        if list[i].1.get() != wanted[i].number || x != wanted[i].x || u != wanted[i].u {
            return Ok(false);
        }
    }
    Ok(true)
}

fn is_field(
    alloc: Global,
    fields: &[Field],
    i: usize,
    x: &[Term],
    u: &[Term],
) -> Result<bool, NoMemory> {
    if i >= fields.len() {
        return Ok(false);
    }
    let parts = fields[i].parts();
    if fields[i].den() != 1 || parts.len() != 2 {
        return Ok(false);
    }
    let left = is_part(alloc, &parts[0], x)?;
    let right = is_part(alloc, &parts[1], u)?;
    Ok(left && right)
}

/// Whether a component of the general form has these terms, the greatest unknown first.
fn is_component(
    alloc: Global,
    system: &LinSystem,
    i: usize,
    wanted: &[Term],
) -> Result<bool, NoMemory> {
    let general = system.general();
    if i >= general.len() {
        return Ok(false);
    }
    let list = triples(alloc, &general[i])?;
    if list.len() != wanted.len() {
        return Ok(false);
    }
    for k in 0..list.len() {
        let (x, u) = (list[k].1.exponent(0), list[k].1.exponent(1));
        let same = list[k].0.unknown == wanted[k].unknown && list[k].2.get() == wanted[k].number;
        if !same || x != wanted[k].x || u != wanted[k].u {
            return Ok(false);
        }
    }
    Ok(true)
}

/// How the basis of so many constants, of which none occurs, is answered: with so many fields, or past the width.
fn answered(alloc: Global, count: u32) -> (Option<usize>, bool) {
    match basis_of(alloc, count, &[], &[]) {
        Ok(Some(fields)) => (Some(fields.len()), false),
        Ok(None) => (None, false),
        Err(fail) => (None, matches!(fail, PolyFail::Past(PastKind::Width))),
    }
}

#[test]
fn widths_end_at_256_unknowns(rt: HostRuntime) {
    let alloc = rt.alloc();
    assert!(rt; answered(alloc, 0) == (Some(0), false));
    assert!(rt; answered(alloc, 256) == (Some(0), false));
    assert!(rt; answered(alloc, 257) == (None, true));
}

// The components 2*f1 + 3*f2 and u*f2.
#[test]
fn two_constants_give_two_generators(rt: HostRuntime) -> Result<(), Fail> {
    let alloc = rt.alloc();
    let x = [made_term(2, 1, 0, 0), made_term(3, 2, 0, 0)];
    let u = [made_term(1, 2, 0, 1)];
    let fields = basis_of(alloc, 2, &x, &u)
        .map_err(|_| "no basis")?
        .ok_or("not valid")?;
    let one = [made_term(1, 0, 0, 0)];
    let first = is_field(alloc, &fields, 0, &one, &[]).map_err(|_| "memory")?;
    let second = is_field(alloc, &fields, 1, &[], &[made_term(1, 0, 0, 1)]).map_err(|_| "memory")?;
    assert!(rt; fields.len() == 2 && first && second);
    Ok(())
}

// The component x^2*f1 + x*f1 + x^2*f2 - x*f2 + 0*f3: the column of x stands before that of x^2.
#[test]
fn lower_degrees_come_first(rt: HostRuntime) -> Result<(), Fail> {
    let alloc = rt.alloc();
    let x = [
        made_term(1, 1, 2, 0),
        made_term(1, 1, 1, 0),
        made_term(1, 2, 2, 0),
        made_term(-1, 2, 1, 0),
    ];
    let fields = basis_of(alloc, 3, &x, &[])
        .map_err(|_| "no basis")?
        .ok_or("not valid")?;
    let first = is_field(alloc, &fields, 0, &[made_term(1, 0, 1, 0)], &[]).map_err(|_| "memory")?;
    let second = is_field(alloc, &fields, 1, &[made_term(1, 0, 2, 0)], &[]).map_err(|_| "memory")?;
    assert!(rt; fields.len() == 2 && first && second);
    Ok(())
}

#[test]
fn closed_form_has_a_constant_for_each_generator(rt: HostRuntime) -> Result<(), Fail> {
    let alloc = rt.alloc();
    let x = [made_term(2, 1, 0, 0), made_term(3, 2, 0, 0)];
    let u = [made_term(1, 2, 0, 1)];
    let made = closed(alloc, 2, &x, &u)
        .map_err(|_| "no form")?
        .ok_or("not valid")?;
    let first = is_component(alloc, &made, 0, &[made_term(1, 1, 0, 0)]).map_err(|_| "memory")?;
    let second = is_component(alloc, &made, 1, &[made_term(1, 2, 0, 1)]).map_err(|_| "memory")?;
    assert!(rt; first && second);
    assert!(rt; made.unknowns().len() == 2 && made.equations().len() == 0 && made.next() == 3);
    Ok(())
}

// An unknown of x is no constant.
#[test]
fn functions_are_not_finite(rt: HostRuntime) -> Result<(), Fail> {
    let alloc = rt.alloc();
    let constant = system(alloc, 1, 0, &[], &[]).map_err(|_| "no form")?;
    let function = system(alloc, 1, 1, &[], &[]).map_err(|_| "no form")?;
    assert!(rt; finite(&constant.ok_or("not valid")?));
    assert!(rt; !finite(&function.ok_or("not valid")?));
    Ok(())
}
