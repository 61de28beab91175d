// Numbers of jets and total derivatives, as tables.
ghost use Rattle.std.specs.Prelude.{IsTrue, IfOk};
ghost use Rattle.lie_math.specs.Derivation.{is_below};
ghost use Rattle.lie_math.specs.Variables.{IsIn};
ghost use Rattle.lie_math.proofs.Kept.{pairs_in};

use crate::{
    Der, Field, Jet, JetPoly, Space, absolute_polynomial, absolute_value, compare_derivatives,
    jet_number, jet_of, jets_up_to, raise_derivative, total,
};
use lie_ring::{Mono, PastKind, PolyFail, Polynomial, Ring, Whole, constant_polynomial};
use std::alloc::Global;
use std::cmp::Ordering;
use std::test::Fail;

#[test]
fn one_variable_each(rt: HostRuntime) -> Result<(), Fail> {
    let space = Space { p: 1, q: 1 };
    let order = |n: u8| Jet {
        dep: 0,
        counts: [n, 0, 0, 0],
    };
    assert_eq!(rt; jet_number(space, &order(0)), 1);
    assert_eq!(rt; jet_number(space, &order(1)), 2);
    assert_eq!(rt; jet_number(space, &order(2)), 3);
    assert_eq!(rt; jet_of(space, 13), Some(order(12)));
    assert_eq!(rt; jet_of(space, 0), None);
    assert_eq!(rt; jet_of(space, 14), None);
    Ok(())
}

#[test]
fn greater_counts_first(rt: HostRuntime) -> Result<(), Fail> {
    let space = Space { p: 2, q: 1 };
    let table = [
        (3, [1, 0, 0, 0]),
        (4, [0, 1, 0, 0]),
        (5, [2, 0, 0, 0]),
        (6, [1, 1, 0, 0]),
        (7, [0, 2, 0, 0]),
    ];
    for (number, counts) in table.iter() {
        let jet = Jet {
            dep: 0,
            counts: *counts,
        };
        assert_eq!(rt; jet_of(space, *number), Some(jet));
    }
    Ok(())
}

#[test]
fn jets_in_order(rt: HostRuntime) -> Result<(), Fail> {
    let alloc = rt.alloc();
    let jets = jets_up_to(alloc, Space { p: 2, q: 2 }, 1)?;
    assert_eq!(rt; jets.len(), 6);
    assert_eq!(rt; jets[1].dep, 1);
    assert_eq!(rt; jets[3].counts, [0, 1, 0, 0]);
    Ok(())
}

#[test]
fn greatest_derivative_first(rt: HostRuntime) -> Result<(), Fail> {
    let plain = Der {
        unknown: 2,
        counts: [0; 8],
    };
    let by_first = raise_derivative(&plain, 0);
    let by_second = raise_derivative(&plain, 1);
    assert_eq!(rt; by_first.counts, [1, 0, 0, 0, 0, 0, 0, 0]);
    assert_eq!(rt; compare_derivatives(&by_first, &plain), Ordering::Less);
    assert_eq!(rt; compare_derivatives(&by_first, &by_second), Ordering::Less);
    assert_eq!(rt; compare_derivatives(&plain, &plain), Ordering::Equal);
    Ok(())
}

/// Terms as they are printed: pairs of a variable and an exponent, and a coefficient.
type Terms<'a> = &'a [(&'a [(u32, u32)], i128)];

fn has_terms(alloc: Global, p: &JetPoly, want: Terms) -> bool {
    match p.terms(alloc) {
        Ok(terms) => {
            let mut same = terms.len() == want.len();
            for (term, other) in terms.as_slice().iter().zip(want) {
                same = same && term.0.pairs() == other.0 && term.1.get() == other.1;
            }
            same
        }
        Err(_) => false,
    }
}

/// One variable of each kind.
const PLANE: Space = Space { p: 1, q: 1 };

/// A product of powers of jets of order at most 11.
fn product(alloc: Global, pairs: &[(u32, u32)]) -> Result<JetPoly, Fail>
    requires { IsTrue (pairs_in (is_below 13) pairs.now) }
    ensures { IfOk result (λ p. IsIn (is_below 13) p) }
{
    let mono = Mono::new(alloc, pairs)?.ok_or("pairs in order")?;
    let terms = vec![in alloc; (mono, Whole::one())]?;
    Ok(JetPoly::of_terms(alloc, terms.as_slice())?)
}

/// Whether the total derivative by x of a product of powers is this.
fn is_total(alloc: Global, pairs: &[(u32, u32)], want: Terms) -> Result<bool, Fail>
    requires { IsTrue (pairs_in (is_below 13) pairs.now) }
{
    let p = product(alloc, pairs)?;
    let derived = total(alloc, PLANE, 0, &p)?;
    Ok(has_terms(alloc, &derived, want))
}

#[test]
fn totals_of_products(rt: HostRuntime) -> Result<(), Fail> {
    let alloc = rt.alloc();
    assert!(rt;
        is_total(
            alloc,
            &[(0, 1), (2, 2)],
            &[(&[(0, 1), (2, 1), (3, 1)], 2), (&[(2, 2)], 1)]
        )?
    );
    assert!(rt;
        is_total(
            alloc,
            &[(0, 1), (1, 1)],
            &[(&[(0, 1), (2, 1)], 1), (&[(1, 1)], 1)]
        )?
    );
    Ok(())
}

/// A number as a polynomial.
fn number(alloc: Global, c: i128) -> Result<JetPoly, Fail> {
    let c = Whole::new(c).ok_or("too wide")?;
    Ok(constant_polynomial(alloc, c)?)
}

#[test]
fn fields_keep_their_parts(rt: HostRuntime) -> Result<(), Fail> {
    let alloc = rt.alloc();
    let field = Field::new(2, vec![in alloc; number(alloc, 3)?]?);
    assert_eq!(rt; field.den(), 2);
    assert_eq!(rt; field.parts().len(), 1);
    assert_eq!(rt; field.into_parts().len(), 1);
    Ok(())
}

#[test]
fn absolute_values(rt: HostRuntime) -> Result<(), Fail> {
    let alloc = rt.alloc();
    let c = Whole::new(-3).ok_or("too wide")?;
    assert_eq!(rt; absolute_value(c).get(), 3);
    let p: JetPoly = constant_polynomial(alloc, c)?;
    let absolute = absolute_polynomial(alloc, &p)?.terms(alloc)?;
    assert_eq!(rt; absolute.len(), 1);
    assert_eq!(rt; absolute[0].1.get(), 3);
    Ok(())
}

/// 2^126, of which two are past the limit on numbers.
const HALF: i128 = 1 << 126;

/// A multiple of u^2.
fn square(alloc: Global, c: i128) -> Result<JetPoly, Fail>
    ensures { IfOk result (λ p. IsIn (is_below 13) p) }
{
    let c = Whole::new(c).ok_or("too wide")?;
    Ok(product(alloc, &[(1, 2)])?.scale(alloc, &c)?)
}

#[test]
fn totals_past_the_limit(rt: HostRuntime) -> Result<(), Fail> {
    let alloc = rt.alloc();
    let past = Some(PolyFail::Past(PastKind::Coefficient));
    for (c, want) in [(HALF, past), (-HALF, past), (HALF - 1, None)].iter() {
        let polynomial = total(alloc, PLANE, 0, &square(alloc, *c)?);
        assert_eq!(rt; polynomial.err(), *want);
    }
    Ok(())
}
