// Reports and the lines of checks, with texts from a model that was written apart.
use crate::{Found, Report, Table, determining_report, no_line, write_report, yes_line};
use lie_bytes::Text;
use lie_jet::{Der, Field, JetPoly, Space};
use lie_lin::{LinEq, LinSystem, Unknown, of_triples};
use lie_ring::{Mono, Polynomial, Ratio, Whole};
use std::alloc::Global;
use std::test::Fail;

const SPACE: Space = Space { p: 1, q: 1 };

// A derivative of an unknown, by the variables 0 and 1.
fn der(unknown: u32, by_first: u8, by_second: u8) -> Der {
    let mut counts = [0; 8];
    counts[0] = by_first;
    counts[1] = by_second;
    Der { unknown, counts }
}

// The sum of terms: a number, the powers of a monomial, and a derivative of an unknown.
fn form(alloc: Global, terms: &[(i128, &[(u32, u32)], Der)]) -> Option<LinEq> {
    let mut list = Vec::new(alloc);
    for (number, powers, der) in terms {
        let monomial = Mono::new(alloc, *powers).ok()??;
        list.push((*der, monomial, Whole::new(*number)?)).ok()?;
    }
    of_triples(alloc, &list).ok()
}

// The determining equation of u_x = u, for the unknowns with the numbers 3 and 7.
fn equation(alloc: Global) -> Option<LinEq> {
    let one: &[(u32, u32)] = &[];
    form(
        alloc,
        &[
            (1, one, der(7, 1, 0)),
            (1, &[(1, 1)], der(7, 0, 1)),
            (-1, &[(1, 1)], der(3, 1, 0)),
            (-1, &[(1, 2)], der(3, 0, 1)),
            (-1, one, der(7, 0, 0)),
        ],
    )
}

// A component with powers in its coefficients.
fn component(alloc: Global) -> Option<LinEq> {
    let one: &[(u32, u32)] = &[];
    form(
        alloc,
        &[
            (1, &[(0, 2), (1, 1)], der(3, 0, 0)),
            (-3, &[(1, 1)], der(3, 0, 0)),
            (-7, one, der(7, 0, 0)),
        ],
    )
}

// The system of this equation, with two unknowns of fewer variables.
fn system(alloc: Global) -> Option<LinSystem> {
    let one: &[(u32, u32)] = &[];
    let mut unknowns = Vec::new(alloc);
    unknowns.push(Unknown { number: 3, vars: 3 }).ok()?;
    unknowns.push(Unknown { number: 7, vars: 3 }).ok()?;
    unknowns.push(Unknown { number: 9, vars: 2 }).ok()?;
    unknowns
        .push(Unknown {
            number: 12,
            vars: 0,
        })
        .ok()?;
    let mut equations = Vec::new(alloc);
    equations.push(equation(alloc)?).ok()?;
    let mut general = Vec::new(alloc);
    general.push(form(alloc, &[(1, one, der(3, 0, 0))])?).ok()?;
    general.push(component(alloc)?).ok()?;
    LinSystem::of_parts(alloc, SPACE, unknowns, equations, general, 13).ok()?
}

// The field of the variables x and u with these components, each one term: a number and powers.
fn field(alloc: Global, components: [(i128, &[(u32, u32)]); 2]) -> Option<Field> {
    let mut parts = Vec::new(alloc);
    for (number, powers) in components {
        let mut terms = Vec::new(alloc);
        terms
            .push((Mono::new(alloc, powers).ok()??, Whole::new(number)?))
            .ok()?;
        parts.push(JetPoly::of_terms(alloc, &terms).ok()?).ok()?;
    }
    Some(Field::new(1, parts))
}

// Three fields.
fn fields(alloc: Global) -> Option<Vec<Field>> {
    let one: &[(u32, u32)] = &[];
    let mut fields = Vec::new(alloc);
    fields.push(field(alloc, [(1, one), (0, one)])?).ok()?;
    fields
        .push(field(alloc, [(-1, &[(0, 2)]), (3, &[(0, 1), (1, 1)])])?)
        .ok()?;
    fields.push(field(alloc, [(0, one), (0, one)])?).ok()?;
    Some(fields)
}

// Combinations of three fields.
fn table(alloc: Global) -> Option<Table> {
    let mut entries = Vec::new(alloc);
    for numbers in [
        [(0, 1), (2, 1), (1, 1)],
        [(-1, 1), (0, 1), (-3, 2)],
        [(0, 1), (0, 1), (0, 1)],
    ] {
        let mut entry = Vec::new(alloc);
        for (num, den) in numbers {
            entry.push(Ratio { num, den }).ok()?;
        }
        entries.push(entry).ok()?;
    }
    Some(Table { entries })
}

// The text of a report of symmetries, with a basis or none.
fn symmetries(alloc: Global, found: Option<Found>) -> Option<Vec<u8>> {
    let names = Text::of(alloc, b"xu").ok()??;
    let system = system(alloc)?;
    write_report(
        alloc,
        &Report::Symmetries {
            names,
            system,
            found,
        },
    )
    .ok()
}

const DETERMINING: &[u8] =
    b"lie determining 1\nvars x\ndeps u\nfree f1(x,u)\nfree f2(x,u)\nfree f3(u)\nfree f4()\n\
    general x = f1\ngeneral u = -7*f2 + x^2*u*f1 - 3*u*f1\nremaining 1\n\
    f2_x + u*f2_u - u*f1_x - u^2*f1_u - f2 = 0\nend\n";

const WITHOUT_BASIS: &[u8] = b"lie symmetries 1, polynomial components only\nvars x\ndeps u\n\
    free f1(x,u)\nfree f2(x,u)\nfree f3(u)\nfree f4()\n\
    general x = f1\ngeneral u = -7*f2 + x^2*u*f1 - 3*u*f1\nremaining 1\n\
    f2_x + u*f2_u - u*f1_x - u^2*f1_u - f2 = 0\ngenerators -\ncommutators -\nend\n";

const WITH_BASIS: &[u8] = b"lie symmetries 1, polynomial components only\nvars x\ndeps u\n\
    free f1(x,u)\nfree f2(x,u)\nfree f3(u)\nfree f4()\n\
    general x = f1\ngeneral u = -7*f2 + x^2*u*f1 - 3*u*f1\nremaining 1\n\
    f2_x + u*f2_u - u*f1_x - u^2*f1_u - f2 = 0\ngenerators 3\nv1 = d_x\nv2 = -x^2*d_x + 3*x*u*d_u\n\
    v3 = 0\ncommutators 3\n[v1,v2] = 2*v2 + v3\n[v1,v3] = -v1 - 3/2*v3\n[v2,v3] = 0\nend\n";

const DEGREE: &[u8] = b"lie degree 1\nvars x\ndeps u\ndegree 2\ngenerators 3\nv1 = d_x\n\
    v2 = -x^2*d_x + 3*x*u*d_u\nv3 = 0\nend\n";

#[test]
fn reports_have_their_lines(rt: HostRuntime) -> Result<(), Fail> {
    let alloc = rt.alloc();
    let opening = system(alloc).ok_or("system")?;
    let text = determining_report(alloc, b"xu", &opening).map_err(|_| "memory")?;
    assert_eq!(rt; text.as_slice(), DETERMINING);
    let text = symmetries(alloc, None).ok_or("symmetries")?;
    assert_eq!(rt; text.as_slice(), WITHOUT_BASIS);
    let found = Found {
        fields: fields(alloc).ok_or("fields")?,
        table: table(alloc).ok_or("table")?,
    };
    let text = symmetries(alloc, Some(found)).ok_or("symmetries")?;
    assert_eq!(rt; text.as_slice(), WITH_BASIS);
    let degree = Report::Degree {
        names: Text::of(alloc, b"xu")?.ok_or("names")?,
        space: SPACE,
        most: 2,
        fields: fields(alloc).ok_or("fields")?,
    };
    let text = write_report(alloc, &degree).map_err(|_| "memory")?;
    assert_eq!(rt; text.as_slice(), DEGREE);
    Ok(())
}

// A polynomial in the coordinates of x, t and u: 0 to 2, then u_x, u_t, u_xx, u_xt and u_tt.
fn remainder(alloc: Global) -> Option<JetPoly> {
    let mut terms = Vec::new(alloc);
    for (pairs, number) in [
        ([(2, 1), (3, 1), (6, 1)].as_slice(), 4),
        ([(3, 2), (5, 1)].as_slice(), -2),
        ([(0, 1)].as_slice(), 1),
        ([].as_slice(), -1),
    ] {
        let monomial = Mono::new(alloc, pairs).ok()??;
        terms.push((monomial, Whole::new(number)?)).ok()?;
    }
    JetPoly::of_terms(alloc, &terms).ok()
}

#[test]
fn lines_of_checks_are_told(rt: HostRuntime) -> Result<(), Fail> {
    let alloc = rt.alloc();
    let yes = yes_line(alloc).map_err(|_| "memory")?;
    assert_eq!(rt; yes.as_slice(), b"yes\n".as_slice());
    let space = Space { p: 2, q: 1 };
    let remainder = remainder(alloc).ok_or("remainder")?;
    let text = no_line(alloc, space, b"xtu", 12, &remainder).map_err(|_| "memory")?;
    let want: &[u8] = b"no equation 12 remainder 4*u*u_x*u_xt - 2*u_x^2*u_xx + x - 1\n";
    assert_eq!(rt; text.as_slice(), want);
    Ok(())
}
