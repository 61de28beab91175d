// Brackets, as a table. The expected ones are worked out by hand from v(w^s) - w(v^s).
ghost use Rattle.std.specs.Prelude.{◌≡◌, IsTrue, IfOk};
ghost use Rattle.lie_math.specs.Derivation.{is_below};
ghost use Rattle.lie_math.specs.Variables.{IsIn};
ghost use Rattle.lie_math.proofs.Kept.{pairs_in};
ghost use Rattle.lie_geometry.specs.Invariance.{IsFieldOn};

use crate::{bracket, table};
use lie_jet::{Field, JetPoly, Space};
use lie_ring::{Mono, PastKind, PolyFail, Polynomial, Ring, Whole};
use std::alloc::Global;
use std::test::Fail;

/// A term: pairs of a variable and an exponent, and a coefficient.
type Term<'a> = (&'a [(u32, u32)], i128);

/// A polynomial of one term in x and u, whose numbers are 0 and 1.
fn part(alloc: Global, pairs: &[(u32, u32)], c: i128) -> Result<JetPoly, Fail>
    requires { IsTrue (pairs_in (is_below 2) pairs.now) }
    ensures { IfOk result (λ made. IsIn (is_below 2) made) }
{
    let mono = Mono::new(alloc, pairs)?.ok_or("pairs in order")?;
    let c = Whole::new(c).ok_or("too wide")?;
    let terms = vec![in alloc; (mono, Whole::one())]?;
    let product = JetPoly::of_terms(alloc, terms.as_slice())?;
    Ok(product.scale(alloc, &c)?)
}

/// The field with two components.
fn field_of_two(alloc: Global, first: JetPoly, second: JetPoly) -> Result<Field, Fail>
    requires first { IsIn (is_below 2) first }
    requires second { IsIn (is_below 2) second }
    ensures whole { IfOk result (λ made. made.denominator ≡ 1) }
    ensures on_space { IfOk result (IsFieldOn (record { p = 1; q = 1 })) }
{
    Ok(Field::new(1, vec![in alloc; first, second]?))
}

/// Whether the polynomial has these terms.
fn has_terms(alloc: Global, made: &JetPoly, want: &[Term]) -> Result<bool, Fail> {
    let terms = made.terms(alloc)?;
    let mut same = terms.len() == want.len();
    for (term, other) in terms.as_slice().iter().zip(want) {
        same = same && term.0.pairs() == other.0 && term.1.get() == other.1;
    }
    Ok(same)
}

#[test]
fn translation_and_scaling(rt: HostRuntime) -> Result<(), Fail> {
    let alloc = rt.alloc();
    let v = field_of_two(alloc, part(alloc, &[], 1)?, part(alloc, &[], 0)?)?;
    let w = field_of_two(alloc, part(alloc, &[(0, 1)], 1)?, part(alloc, &[], 0)?)?;
    let made = bracket(alloc, Space { p: 1, q: 1 }, &v, &w)?;
    assert_eq!(rt; made.parts().len(), 2);
    assert!(rt; has_terms(alloc, &made.parts()[0], &[(&[], 1)])?);
    assert!(rt; has_terms(alloc, &made.parts()[1], &[])?);
    Ok(())
}

/// The bracket of u*d_x + 2*d_u and x*u*d_u: its components are -x*u and u^2 + 2*x.
#[test]
fn both_components(rt: HostRuntime) -> Result<(), Fail> {
    let alloc = rt.alloc();
    let v = field_of_two(alloc, part(alloc, &[(1, 1)], 1)?, part(alloc, &[], 2)?)?;
    let w = field_of_two(
        alloc,
        part(alloc, &[], 0)?,
        part(alloc, &[(0, 1), (1, 1)], 1)?,
    )?;
    let made = bracket(alloc, Space { p: 1, q: 1 }, &v, &w)?;
    assert_eq!(rt; made.parts().len(), 2);
    assert!(rt; has_terms(alloc, &made.parts()[0], &[(&[(0, 1), (1, 1)], -1)])?);
    assert!(rt; has_terms(alloc, &made.parts()[1], &[(&[(1, 2)], 1), (&[(0, 1)], 2)])?);
    Ok(())
}

#[test]
fn product_too_wide(rt: HostRuntime) -> Result<(), Fail> {
    let alloc = rt.alloc();
    let v = field_of_two(alloc, part(alloc, &[], 1 << 100)?, part(alloc, &[], 0)?)?;
    let w = field_of_two(
        alloc,
        part(alloc, &[(0, 1)], 1 << 100)?,
        part(alloc, &[], 0)?,
    )?;
    let made = bracket(alloc, Space { p: 1, q: 1 }, &v, &w);
    assert!(rt; matches!(made, Err(PolyFail::Past(PastKind::Coefficient))));
    Ok(())
}

#[test]
fn table_of_no_fields(rt: HostRuntime) -> Result<(), Fail> {
    let alloc = rt.alloc();
    let basis: Vec<Field> = Vec::new(alloc);
    let made = table(alloc, Space { p: 1, q: 1 }, basis.as_slice())?;
    assert_eq!(rt; made.len(), 0);
    Ok(())
}
