// The unknowns of an opening system, and its general forms.
ghost use Rattle.std.specs.Prelude.{◌≡◌, ◌<◌, ◌≤◌, ◌+◌, [], filter, map, IfOk};
ghost use Rattle.std.specs.List.{range_with_len};
ghost use Rattle.lie_geometry.specs.DeterminingEquations.{determining_system};
ghost use Rattle.lie_geometry.specs.SymbolicProlongation.{unknown};
ghost use Rattle.lie_jet.specs.Derivatives.{derivative_of};
ghost use Rattle.lie_lin.specs.Systems.{has_bit, unknown_of};

use crate::parts::count_z;
use lie_bytes::NoMemory;
use lie_jet::{Der, Space};
use lie_lin::{LinEq, Unknown};
use lie_parts::sum_of;
use lie_ring::{Mono, Ring, Whole};
use std::alloc::Global;

/// The bits of the variables below a number of at most 8.
fn bits_below(count: u32) -> u8
    requires { count ≤ 8 }
    ensures { filter (has_bit result) (range_with_len 0 8) ≡ range_with_len 0 count }
{
    match count {
        0 => 0,
        1 => 1,
        2 => 3,
        3 => 7,
        4 => 15,
        5 => 31,
        6 => 63,
        7 => 127,
        _ => 255,
    }
}

/// The unknowns 1 to p + q, each of all variables z.
pub fn unknowns(alloc: Global, space: Space) -> Result<Vec<Unknown>, NoMemory>
    ensures { IfOk result (λ list. map unknown_of list.items ≡ (determining_system space []).unknowns) }
{
    let count = count_z(space);
    let vars = bits_below(count);
    let mut list = Vec::new(alloc);
    for place in 0..count {
        let number = place + 1;
        list.push(Unknown { number, vars })?;
    }
    Ok(list)
}

/// An unknown that is not derived.
fn plain(unknown: u32) -> Der
    ensures { derivative_of result ≡ record { unknown = unknown; counts = [] } }
{
    Der {
        unknown,
        counts: [0; 8],
    }
}

/// The form that is the unknown for the component at a place.
fn unknown(alloc: Global, place: u32) -> Result<LinEq, NoMemory>
    requires { place < 8 }
    ensures { IfOk result (λ form. form ≡ unknown place) }
{
    sum_of(alloc, &[(plain(place + 1), Mono::one(alloc), Whole::one())])
}

/// The general forms: the unknown s + 1 at the component s.
pub fn general(alloc: Global, space: Space) -> Result<Vec<LinEq>, NoMemory>
    ensures { IfOk result (λ list. list.items ≡ (determining_system space []).general) }
{
    let count = count_z(space);
    let mut list = Vec::new(alloc);
    for place in 0..count {
        let form = unknown(alloc, place)?;
        list.push(form)?;
    }
    Ok(list)
}
