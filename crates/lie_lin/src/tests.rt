// Sums of triples, their triples and their leads, and normalised equations.
ghost use Rattle.std.specs.Prelude.{◌≡◌, [], IfOk};
ghost use Rattle.lie_jet.specs.Derivatives.{derivative_of};
ghost use Rattle.lie_math.specs.LinearForm.{unknown_form};

use crate::{
    LinEq, compare_equations, derivative_alone, form_triple_count, lead, of_triples, primitive,
    triples,
};
use lie_bytes::NoMemory;
use lie_jet::Der;
use lie_ring::{Mono, PastKind, PolyFail, Ring, Whole};
use std::alloc::Global;
use std::cmp::Ordering;
use std::test::Fail;

// x is the variable 0.
fn der(unknown: u32, by_x: u8) -> Der {
    let mut counts = [0; 8];
    counts[0] = by_x;
    Der { unknown, counts }
}

#[test]
fn sum_is_gathered_and_printed_in_order(rt: HostRuntime) -> Result<(), Fail> {
    let alloc = rt.alloc();
    let two = Whole::new(2).ok_or("2")?;
    let one = Whole::new(1).ok_or("1")?;
    let minus_one = Whole::new(-1).ok_or("-1")?;
    let x = Mono::variable(alloc, 0);
    let mut list = Vec::new(alloc);
    list.push((der(1, 0), Mono::one(alloc), two))
        .map_err(|_| "memory")?;
    list.push((der(2, 1), x, one)).map_err(|_| "memory")?;
    list.push((der(1, 0), Mono::one(alloc), minus_one))
        .map_err(|_| "memory")?;
    let form = of_triples(alloc, list.as_slice()).map_err(|_| "sum")?;
    let parts = triples(alloc, &form).map_err(|_| "memory")?;
    assert_eq!(rt; parts.len(), 2);
    assert_eq!(rt; parts[0].0, der(2, 1));
    assert_eq!(rt; parts[0].1.pairs(), [(0, 1)].as_slice());
    assert_eq!(rt; parts[0].2.get(), 1);
    assert_eq!(rt; parts[1].0, der(1, 0));
    assert_eq!(rt; parts[1].1.pairs().len(), 0);
    assert_eq!(rt; parts[1].2.get(), 1);
    assert_eq!(rt; lead(&form), Some(der(2, 1)));
    Ok(())
}

#[test]
fn sum_past_the_numbers_is_told(rt: HostRuntime) -> Result<(), Fail> {
    let alloc = rt.alloc();
    let most = Whole::new(i128::MAX).ok_or("2^127 - 1")?;
    for number in [most, most.neg()] {
        let mut list = Vec::new(alloc);
        for (der, number) in [(der(1, 0), most), (der(2, 1), number)] {
            list.push((der, Mono::one(alloc), number))
                .map_err(|_| "memory")?;
        }
        let form = of_triples(alloc, list.as_slice()).map_err(|_| "two derivatives")?;
        assert_eq!(rt; form_triple_count(&form), 2);
        list.push((der(1, 0), Mono::one(alloc), number))
            .map_err(|_| "memory")?;
        let past = match of_triples(alloc, list.as_slice()) {
            Err(PolyFail::Past(kind)) => kind == PastKind::Coefficient,
            _ => false,
        };
        assert!(rt; past);
    }
    Ok(())
}

#[test]
fn empty_sum_has_no_lead(rt: HostRuntime) -> Result<(), Fail> {
    let alloc = rt.alloc();
    let form = of_triples(alloc, &[]).map_err(|_| "sum")?;
    assert_eq!(rt; lead(&form), None);
    assert_eq!(rt; triples(alloc, &form).map_err(|_| "memory")?.len(), 0);
    Ok(())
}

#[test]
fn equations_are_ordered_by_triples(rt: HostRuntime) -> Result<(), Fail> {
    let alloc = rt.alloc();
    let first = unknown(alloc, 1).map_err(|_| "memory")?;
    let second = unknown(alloc, 2).map_err(|_| "memory")?;
    assert_eq!(rt; form_triple_count(&first), 1);
    let order = compare_equations(alloc, &first, &second).map_err(|_| "memory")?;
    assert_eq!(rt; order, Ordering::Less);
    let order = compare_equations(alloc, &second, &second).map_err(|_| "memory")?;
    assert_eq!(rt; order, Ordering::Equal);
    Ok(())
}

#[test]
fn equation_is_divided_by_what_divides_it(rt: HostRuntime) -> Result<(), Fail> {
    let alloc = rt.alloc();
    let minus_four = Whole::new(-4).ok_or("-4")?;
    let six = Whole::new(6).ok_or("6")?;
    let x = Mono::variable(alloc, 0);
    let square = Mono::power(alloc, 0, 2);
    let mut list = Vec::new(alloc);
    list.push((der(1, 1), square, minus_four))
        .map_err(|_| "memory")?;
    list.push((der(2, 0), x, six)).map_err(|_| "memory")?;
    let form = of_triples(alloc, list.as_slice()).map_err(|_| "sum")?;
    let made = primitive(alloc, &form).map_err(|_| "memory")?;
    let parts = triples(alloc, &made).map_err(|_| "memory")?;
    assert_eq!(rt; parts.len(), 2);
    assert_eq!(rt; parts[0].0, der(1, 1));
    assert_eq!(rt; parts[0].1.pairs(), [(0, 1)].as_slice());
    assert_eq!(rt; parts[0].2.get(), 2);
    assert_eq!(rt; parts[1].0, der(2, 0));
    assert_eq!(rt; parts[1].1.pairs().len(), 0);
    assert_eq!(rt; parts[1].2.get(), -3);
    Ok(())
}

#[test]
fn equation_of_one_derivative_is_the_derivative(rt: HostRuntime) -> Result<(), Fail> {
    let alloc = rt.alloc();
    let two = Whole::new(2).ok_or("2")?;
    let minus_one = Whole::new(-1).ok_or("-1")?;
    let x = Mono::variable(alloc, 0);
    let mut list = Vec::new(alloc);
    list.push((der(1, 1), x, minus_one)).map_err(|_| "memory")?;
    list.push((der(1, 1), Mono::one(alloc), two))
        .map_err(|_| "memory")?;
    let form = of_triples(alloc, list.as_slice()).map_err(|_| "sum")?;
    let made = primitive(alloc, &form).map_err(|_| "memory")?;
    let parts = triples(alloc, &made).map_err(|_| "memory")?;
    assert_eq!(rt; parts.len(), 1);
    assert_eq!(rt; parts[0].0, der(1, 1));
    assert_eq!(rt; parts[0].1.pairs().len(), 0);
    assert_eq!(rt; parts[0].2.get(), 1);
    Ok(())
}

// An unknown that is not derived.
fn plain(unknown: u32) -> Der
    ensures { derivative_of result ≡ record { unknown = unknown; counts = [] } }
{
    Der {
        unknown,
        counts: [0; 8],
    }
}

pub fn unknown(alloc: Global, number: u32) -> Result<LinEq, NoMemory>
    ensures { IfOk result (λ form. form ≡ unknown_form number) }
{
    derivative_alone(alloc, plain(number))
}
