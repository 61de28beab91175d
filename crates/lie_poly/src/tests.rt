// Each call of a polynomial, at flat polynomials over whole numbers, through the trait's bound.
use crate::Flat;
use lie_bytes::NoMemory;
use lie_ring::{
    Mono, PastKind, PolyFail, Polynomial, Ring, Whole, constant_polynomial, term_polynomial,
    variable_polynomial,
};
use std::alloc::Global;
use std::process::Abort;
use std::test::Fail;

/// A polynomial written as its terms.
type Terms<'a> = &'a [(&'a [(u32, u32)], i128)];

fn listed(alloc: Global, terms: Terms) -> Result<Vec<(Mono, Whole)>, NoMemory> {
    let mut list = Vec::new(alloc);
    for (pairs, c) in terms {
        if let (Some(mono), Some(c)) = (Mono::new(alloc, pairs)?, Whole::new(*c)) {
            list.push((mono, c))?;
        }
    }
    Ok(list)
}

fn made<P: Polynomial<Whole>>(alloc: Global, terms: Terms) -> Result<P, PolyFail> {
    let list = listed(alloc, terms)?;
    P::of_terms(alloc, list.as_slice())
}

/// Whether the polynomial has just these terms, in this order.
fn has_terms<P: Polynomial<Whole>>(alloc: Global, p: &P, want: Terms) -> bool {
    match p.terms(alloc) {
        Ok(terms) => {
            let mut same = terms.len() == want.len();
            for (term, other) in terms.as_slice().iter().zip(want) {
                same = same && term.0.pairs() == other.0 && term.1.get() == other.1;
            }
            same
        }
        Err(_) => false,
    }
}

/// The answer is a polynomial with just these terms.
fn wants_terms<P: Polynomial<Whole>>(
    rt: &impl Abort,
    alloc: Global,
    answer: Result<P, PolyFail>,
    want: Terms,
) {
    let same = match answer {
        Ok(p) => has_terms(alloc, &p, want),
        Err(_) => false,
    };
    assert!(rt; same);
}

/// The answer is that a number is past what its type holds.
fn wants_past<P: Polynomial<Whole>>(rt: &impl Abort, answer: Result<P, PolyFail>, want: PastKind) {
    let same = match answer {
        Err(PolyFail::Past(kind)) => kind == want,
        _ => false,
    };
    assert!(rt; same);
}

const X: &[(u32, u32)] = &[(0, 1)];

const Y: &[(u32, u32)] = &[(1, 1)];

const MOST: i128 = i128::MAX;

const HALF: i128 = 1 << 126;

fn sum<P: Polynomial<Whole>>(alloc: Global, p: Terms, q: Terms) -> Result<P, PolyFail> {
    let p: P = made(alloc, p)?;
    let q: P = made(alloc, q)?;
    p.add(alloc, &q)
}

fn product<P: Polynomial<Whole>>(alloc: Global, p: Terms, q: Terms) -> Result<P, PolyFail> {
    let p: P = made(alloc, p)?;
    let q: P = made(alloc, q)?;
    p.mul(alloc, &q)
}

fn multiple<P: Polynomial<Whole>>(alloc: Global, p: Terms, c: i128) -> Result<P, PolyFail> {
    let p: P = made(alloc, p)?;
    match Whole::new(c) {
        Some(c) => p.scale(alloc, &c),
        None => Ok(p),
    }
}

fn derivative<P: Polynomial<Whole>>(alloc: Global, p: Terms, var: u32) -> Result<P, PolyFail> {
    let p: P = made(alloc, p)?;
    p.derive(alloc, var)
}

fn copied<P: Polynomial<Whole>>(alloc: Global, p: Terms) -> Result<P, PolyFail> {
    let p: P = made(alloc, p)?;
    Ok(p.copy(alloc)?)
}

fn check_made(rt: &impl Abort, alloc: Global, p: Terms, want: Terms) {
    let answer: Result<Flat<Whole>, PolyFail> = made(alloc, p);
    wants_terms(rt, alloc, answer, want);
}

fn check_sum(rt: &impl Abort, alloc: Global, p: Terms, q: Terms, want: Terms) {
    let answer: Result<Flat<Whole>, PolyFail> = sum(alloc, p, q);
    wants_terms(rt, alloc, answer, want);
}

fn check_product(rt: &impl Abort, alloc: Global, p: Terms, q: Terms, want: Terms) {
    let answer: Result<Flat<Whole>, PolyFail> = product(alloc, p, q);
    wants_terms(rt, alloc, answer, want);
}

fn check_multiple(rt: &impl Abort, alloc: Global, p: Terms, c: i128, want: Terms) {
    let answer: Result<Flat<Whole>, PolyFail> = multiple(alloc, p, c);
    wants_terms(rt, alloc, answer, want);
}

fn check_derivative(rt: &impl Abort, alloc: Global, p: Terms, var: u32, want: Terms) {
    let answer: Result<Flat<Whole>, PolyFail> = derivative(alloc, p, var);
    wants_terms(rt, alloc, answer, want);
}

fn check_copy(rt: &impl Abort, alloc: Global, p: Terms) {
    let answer: Result<Flat<Whole>, PolyFail> = copied(alloc, p);
    wants_terms(rt, alloc, answer, p);
}

#[test]
fn sums_of_terms(rt: HostRuntime) {
    let alloc = rt.alloc();
    check_made(
        &rt,
        alloc,
        &[(&[], 7), (Y, 1), (&[(0, 1), (1, 1)], 2), (X, 3), (&[], -2)],
        &[(&[(0, 1), (1, 1)], 2), (X, 3), (Y, 1), (&[], 5)],
    );
    check_made(&rt, alloc, &[(X, HALF), (X, 1 - HALF)], &[(X, 1)]);
    check_made(&rt, alloc, &[(X, 4), (Y, 0), (X, -4)], &[]);
    let past: Result<Flat<Whole>, PolyFail> = made(alloc, &[(X, MOST), (X, -MOST)]);
    wants_past(&rt, past, PastKind::Coefficient);
    let past: Result<Flat<Whole>, PolyFail> = made(alloc, &[(&[(3, 65_536)], 1)]);
    wants_past(&rt, past, PastKind::Exponent);
}

#[test]
fn sums(rt: HostRuntime) {
    let alloc = rt.alloc();
    check_sum(&rt, alloc, &[(X, HALF)], &[(X, 1 - HALF)], &[(X, 1)]);
    check_sum(
        &rt,
        alloc,
        &[(X, 1), (&[], 1)],
        &[(Y, 2), (&[], -1)],
        &[(X, 1), (Y, 2)],
    );
    let past: Result<Flat<Whole>, PolyFail> = sum(alloc, &[(X, MOST)], &[(X, -MOST)]);
    wants_past(&rt, past, PastKind::Coefficient);
}

#[test]
fn products(rt: HostRuntime) {
    let alloc = rt.alloc();
    check_product(
        &rt,
        alloc,
        &[(X, 1), (&[], 1)],
        &[(X, 1), (&[], -1)],
        &[(&[(0, 2)], 1), (&[], -1)],
    );
    check_product(
        &rt,
        alloc,
        &[(X, 1), (Y, 2)],
        &[(X, 3), (Y, -4)],
        &[(&[(0, 2)], 3), (&[(0, 1), (1, 1)], 2), (&[(1, 2)], -8)],
    );
    let past: Result<Flat<Whole>, PolyFail> = product(alloc, &[(&[(0, 65_535)], 1)], &[(X, 1)]);
    wants_past(&rt, past, PastKind::Exponent);
    let past: Result<Flat<Whole>, PolyFail> = product(alloc, &[(X, MOST)], &[(X, 2)]);
    wants_past(&rt, past, PastKind::Coefficient);
}

#[test]
fn multiples_derivatives_and_copies(rt: HostRuntime) {
    let alloc = rt.alloc();
    check_multiple(
        &rt,
        alloc,
        &[(&[(0, 3), (2, 1)], 5), (X, -1), (&[], 5)],
        -3,
        &[(&[(0, 3), (2, 1)], -15), (X, 3), (&[], -15)],
    );
    check_derivative(
        &rt,
        alloc,
        &[(&[(0, 3), (2, 1)], 5), (X, -1), (&[], 5)],
        0,
        &[(&[(0, 2), (2, 1)], 15), (&[], -1)],
    );
    check_derivative(&rt, alloc, &[(&[], 5)], 0, &[]);
    let past: Result<Flat<Whole>, PolyFail> = multiple(alloc, &[(X, 2)], -MOST);
    wants_past(&rt, past, PastKind::Coefficient);
    check_copy(&rt, alloc, &[(&[(0, 3), (2, 1)], 5), (X, -1), (&[], 5)]);
    let past: Result<Flat<Whole>, PolyFail> = derivative(alloc, &[(&[(0, 3)], HALF)], 0);
    wants_past(&rt, past, PastKind::Coefficient);
    let none: Flat<Whole> = Polynomial::zero(alloc);
    assert!(rt; none.len() == 0);
}

/// A number times a monomial, where its exponents are low.
fn one_term<P: Polynomial<Whole>>(alloc: Global, mono: Mono, number: Whole) -> Result<P, PolyFail> {
    if !mono.has_low_exponents() {
        return Err(PolyFail::Past(PastKind::Exponent));
    }
    Ok(term_polynomial(alloc, mono, number)?)
}

#[test]
fn polynomials_of_one_term(rt: HostRuntime) -> Result<(), Fail> {
    let alloc = rt.alloc();
    let term: Flat<Whole> = one_term(alloc, Mono::power(alloc, 3, 2), Whole::one().neg()).map_err(
        |_| "a term",
    )?;
    let number: Flat<Whole> = constant_polynomial(alloc, Whole::one().neg())?;
    let variable: Flat<Whole> = variable_polynomial(alloc, 3)?;
    assert!(rt; has_terms(alloc, &term, &[(&[(3, 2)], -1)]));
    assert!(rt; has_terms(alloc, &number, &[(&[], -1)]));
    assert!(rt; has_terms(alloc, &variable, &[(&[(3, 1)], 1)]));
    Ok(())
}

/// The sum of the powers of a variable, from 1 on.
fn powers(alloc: Global, var: u32, count: u32) -> Result<Flat<Whole>, PolyFail> {
    let mut terms = Vec::new(alloc);
    for exponent in 0..count {
        terms.push((Mono::power(alloc, var, exponent), Whole::one()))?;
    }
    Polynomial::of_terms(alloc, terms.as_slice())
}

/// A polynomial with as many terms as the product of the counts.
fn rectangle(alloc: Global, width: u32, height: u32) -> Result<Flat<Whole>, PolyFail> {
    let left = powers(alloc, 0, width)?;
    let right = powers(alloc, 1, height)?;
    left.mul(alloc, &right)
}

#[test]
fn long_products(rt: HostRuntime) -> Result<(), Fail> {
    let alloc = rt.alloc();
    let x = powers(alloc, 0, 12).map_err(|_| "12 terms")?;
    let y = powers(alloc, 7, 12).map_err(|_| "12 terms")?;
    let square = x.mul(alloc, &x).map_err(|_| "23 terms")?;
    let rectangle = x.mul(alloc, &y).map_err(|_| "144 terms")?;
    assert_eq!(rt; square.len(), 23);
    assert_eq!(rt; rectangle.len(), 144);
    Ok(())
}

#[test]
fn limit_of_terms(rt: HostRuntime) -> Result<(), Fail> {
    let alloc = rt.alloc();
    let most = rectangle(alloc, 1000, 1000).map_err(|_| "1,000,000 terms")?;
    assert_eq!(rt; most.len(), 1_000_000);
    wants_past(&rt, rectangle(alloc, 1001, 1000), PastKind::Terms);
    let other: Flat<Whole> = made(alloc, &[(&[(2, 1)], 1)]).map_err(
        |_| "one term of another variable",
    )?;
    wants_past(&rt, most.add(alloc, &other), PastKind::Terms);
    Ok(())
}
