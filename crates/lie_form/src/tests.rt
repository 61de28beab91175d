// Linear forms and their total derivatives, as tables.
ghost use Rattle.std.specs.Prelude.{IsTrue, IfOk};
ghost use Rattle.lie_math.specs.Derivation.{is_below};
ghost use Rattle.lie_math.specs.Variables.{IsIn};
ghost use Rattle.lie_math.proofs.Kept.{pairs_in};

use crate::{SymForm, total_sym};
use lie_jet::{Der, JetPoly, Space, raise_derivative};
use lie_ring::{Mono, PastKind, PolyFail, Polynomial, Ring, Whole, constant_polynomial};
use std::alloc::Global;
use std::test::Fail;

/// Terms as they are printed: pairs of a variable and an exponent, and a coefficient.
type Terms<'a> = &'a [(&'a [(u32, u32)], i128)];

fn has_terms(alloc: Global, p: &JetPoly, want: Terms) -> bool {
    match p.terms(alloc) {
        Ok(terms) => {
            let mut same = terms.len() == want.len();
            for (term, other) in terms.as_slice().iter().zip(want) {
                same = same && term.0.pairs() == other.0 && term.1.get() == other.1;
            }
            same
        }
        Err(_) => false,
    }
}

/// One variable of each kind.
const PLANE: Space = Space { p: 1, q: 1 };

/// A product of powers of jets of order at most 11.
fn product(alloc: Global, pairs: &[(u32, u32)]) -> Result<JetPoly, Fail>
    requires { IsTrue (pairs_in (is_below 13) pairs.now) }
    ensures { IfOk result (λ p. IsIn (is_below 13) p) }
{
    let mono = Mono::new(alloc, pairs)?.ok_or("pairs in order")?;
    let terms = vec![in alloc; (mono, Whole::one())]?;
    Ok(JetPoly::of_terms(alloc, terms.as_slice())?)
}

/// A number as a polynomial.
fn number(alloc: Global, c: i128) -> Result<JetPoly, Fail> {
    let c = Whole::new(c).ok_or("too wide")?;
    Ok(constant_polynomial(alloc, c)?)
}

#[test]
fn greatest_derivative_first(rt: HostRuntime) -> Result<(), Fail> {
    let alloc = rt.alloc();
    let lesser = Der {
        unknown: 2,
        counts: [0; 8],
    };
    let greater = Der {
        unknown: 1,
        counts: [1, 0, 0, 0, 0, 0, 0, 0],
    };
    let mut form = SymForm::zero(alloc);
    form.put(alloc, lesser, number(alloc, 1)?)?;
    form.put(alloc, greater, number(alloc, 2)?)?;
    form.put(alloc, lesser, number(alloc, 3)?)?;
    assert_eq!(rt; form.terms().len(), 2);
    for (term, want) in form.terms().iter().zip(&[(greater, 2), (lesser, 4)]) {
        assert_eq!(rt; term.0, want.0);
        assert!(rt; has_terms(alloc, &term.1, &[(&[], want.1)]));
    }
    Ok(())
}

/// The second unknown.
const SECOND: Der = Der {
    unknown: 2,
    counts: [0; 8],
};

/// The total derivative by x of a polynomial times the second unknown.
fn form_total(alloc: Global, p: JetPoly) -> Result<SymForm, PolyFail>
    requires { IsIn (is_below 13) p }
{
    let mut form = SymForm::zero(alloc);
    form.put(alloc, SECOND, p)?;
    total_sym(alloc, PLANE, 0, &form)
}

#[test]
fn total_of_a_form(rt: HostRuntime) -> Result<(), Fail> {
    let alloc = rt.alloc();
    let derived = form_total(alloc, product(alloc, &[(0, 1), (1, 1)])?)?;
    let terms = derived.terms();
    assert_eq!(rt; terms.len(), 3);
    assert_eq!(rt; terms[0].0, raise_derivative(&SECOND, 0));
    assert!(rt; has_terms(alloc, &terms[0].1, &[(&[(0, 1), (1, 1)], 1)]));
    assert_eq!(rt; terms[1].0, raise_derivative(&SECOND, 1));
    assert!(rt; has_terms(alloc, &terms[1].1, &[(&[(0, 1), (1, 1), (2, 1)], 1)]));
    assert_eq!(rt; terms[2].0, SECOND);
    assert!(rt;
        has_terms(
            alloc,
            &terms[2].1,
            &[(&[(0, 1), (2, 1)], 1), (&[(1, 1)], 1)]
        )
    );
    Ok(())
}

/// 2^126, of which two are past the limit on numbers.
const HALF: i128 = 1 << 126;

/// Whether a second number is past beside the first at the same derivative, where the form is as it was.
fn is_past(alloc: Global, first: i128, second: i128) -> Result<bool, Fail> {
    let mut form = SymForm::zero(alloc);
    form.put(alloc, SECOND, number(alloc, first)?)?;
    let fail = form.put(alloc, SECOND, number(alloc, second)?).err();
    let terms = form.terms();
    Ok(
        fail == Some(PolyFail::Past(PastKind::Coefficient))
            && terms.len() == 1
            && has_terms(alloc, &terms[0].1, &[(&[], first)]),
    )
}

/// Whether two numbers at the same derivative have this sum.
fn is_sum(alloc: Global, first: i128, second: i128, sum: i128) -> Result<bool, Fail> {
    let mut form = SymForm::zero(alloc);
    form.put(alloc, SECOND, number(alloc, first)?)?;
    form.put(alloc, SECOND, number(alloc, second)?)?;
    let terms = form.terms();
    Ok(terms.len() == 1 && has_terms(alloc, &terms[0].1, &[(&[], sum)]))
}

#[test]
fn absolute_values_are_added(rt: HostRuntime) -> Result<(), Fail> {
    let alloc = rt.alloc();
    let past = [
        (HALF, HALF),
        (i128::MAX, -1),
        (-i128::MAX, 1),
        (HALF, -HALF),
    ];
    for (first, second) in past.iter() {
        assert!(rt; is_past(alloc, *first, *second)?);
    }
    let within = [
        (HALF, HALF - 1, i128::MAX),
        (-HALF, HALF - 1, -1),
        (1 - i128::MAX, 1, 2 - i128::MAX),
    ];
    for (first, second, sum) in within.iter() {
        assert!(rt; is_sum(alloc, *first, *second, *sum)?);
    }
    Ok(())
}

/// A multiple of u^2.
fn square(alloc: Global, c: i128) -> Result<JetPoly, Fail>
    ensures { IfOk result (λ p. IsIn (is_below 13) p) }
{
    let c = Whole::new(c).ok_or("too wide")?;
    Ok(product(alloc, &[(1, 2)])?.scale(alloc, &c)?)
}

#[test]
fn totals_past_the_limit(rt: HostRuntime) -> Result<(), Fail> {
    let alloc = rt.alloc();
    let past = Some(PolyFail::Past(PastKind::Coefficient));
    for (c, want) in [(HALF, past), (-HALF, past), (HALF - 1, None)].iter() {
        let form = form_total(alloc, square(alloc, *c)?);
        assert_eq!(rt; form.err(), *want);
    }
    Ok(())
}
