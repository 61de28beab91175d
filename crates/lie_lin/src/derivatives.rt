// The derivatives that occur in a list of triples, in printed order.
ghost use Rattle.std.specs.Prelude.{◌≡◌, ◌≤◌, length, IfOk, OnOk, MatchOption};
ghost use Rattle.std.specs.List.{insert};
ghost use Rattle.lie_lin.specs.Forms.{derivatives_of, triples_of, placed, AreDerivatives};
ghost use Rattle.lie_jet.specs.Derivatives.{derivative_of};

use lie_bytes::NoMemory;
use lie_jet::{Der, compare_derivatives};
use lie_ring::{Mono, Whole};
use std::alloc::Global;
use std::cmp::Ordering;

/// The place before which a derivative has to be put into a list in printed order; None where it is there.
fn place_of(ders: &[Der], der: &Der) -> Option<usize>
    ensures { MatchOption result
        (placed (derivative_of der.now) (derivatives_of ders.now) ≡ derivatives_of ders.now)
        (λ i. (i ≤ length ders.now) × (derivatives_of (insert ders.now i der.now) ≡ placed (derivative_of der.now)
        (derivatives_of ders.now))) }
{
    let mut i = 0;
    while i < ders.len() {
        match compare_derivatives(der, &ders[i]) {
            Ordering::Less => return Some(i),
            Ordering::Equal => return None,
            Ordering::Greater => i += 1,
        }
    }
    Some(i)
}

/// Puts a derivative into a list in printed order, unless it is there.
fn put(ders: &mut Vec<Der>, der: &Der) -> Result<(), NoMemory>
    ensures { OnOk result (derivatives_of ders.new.items ≡ placed (derivative_of der.now) (derivatives_of ders.old.items)) }
{
    match place_of(ders.as_slice(), der) {
        None => Ok(()),
        Some(i) => Ok(ders.insert(i, *der)?),
    }
}

/// The derivatives that occur in triples, in printed order, each once.
pub fn derivatives(alloc: Global, list: &[(Der, Mono, Whole)]) -> Result<Vec<Der>, NoMemory>
    ensures { IfOk result (λ ders. AreDerivatives (derivatives_of ders.items) (triples_of list.now)) }
{
    let mut ders = Vec::new(alloc);
    for triple in list {
        put(&mut ders, &triple.0)?;
    }
    Ok(ders)
}
