// The numbers of jets, and the jets of numbers.
ghost use Rattle.std.specs.Prelude.{◌≡◌, ◌+◌, ◌<◌, ◌≤◌, ◌⊎◌, Some, MatchOption};
ghost use Rattle.lie_geometry.specs.Coordinates.{number as number_of, coordinate, coordinates_up_to};
ghost use Rattle.lie_jet.specs.Limits.{greatest_jet_order};
ghost use Rattle.lie_jet.specs.Jets.{coordinate_of, IsJet, IsSmall};
ghost use Rattle.lie_jet.specs.declared.jet.Jet.{Jet};

use crate::jet::Jet;
use crate::ranks::{lists_below, put_counts, rank_of, sum_at, sum_of_counts};
use crate::space::Space;

/// The greatest order of a jet that has a number.
const MAX_ORDER: u32 = 12;

/// The number of a jet of order at most 12: the independent variables have the numbers below p, and then come the dependent
/// variables, the jets of order 1, of order 2 and so on; within an order by dependent variable, and then the lexicographically
/// greater counts first.
pub fn jet_number(space: Space, jet: &Jet) -> u32
    requires { IsJet space greatest_jet_order jet.now }
    ensures number { result ≡ number_of space (coordinate_of space jet.now) }
    ensures jet { space.p ≤ result }
    ensures low { result < coordinates_up_to space greatest_jet_order }
{
    let counts = &jet.counts[..usize::from(space.p)];
    let order = sum_of_counts(counts);
    let below = lists_below(counts.len(), order);
    let same = lists_below(counts.len(), order + 1) - below;
    u32::from(space.p) + u32::from(space.q) * below + u32::from(jet.dep) * same + rank_of(counts)
}

/// The jet with a number; None exactly where the number is that of an independent variable or of a jet of an order past 12.
pub fn jet_of(space: Space, number: u32) -> Option<Jet>
    ensures jet { MatchOption result ((number < space.p) ⊎ (coordinates_up_to space greatest_jet_order ≤ number))
        (λ j. IsJet space greatest_jet_order j × (coordinate space number ≡ coordinate_of space j)) }
    ensures inverse { (j : Jet) → IsJet space greatest_jet_order j → number_of space (coordinate_of space j) ≡ number → result ≡ Some j }
    ensures small { IsSmall space }
{
    if number < u32::from(space.p) {
        return None;
    }
    let p = usize::from(space.p);
    let q = u32::from(space.q);
    let place = number - u32::from(space.p);
    if place >= q * lists_below(p, MAX_ORDER + 1) {
        return None;
    }
    let order = sum_at(p, q, place, MAX_ORDER);
    let below = lists_below(p, order);
    let same = lists_below(p, order + 1) - below;
    let place = place - q * below;
    let mut counts = [0; 4];
    put_counts(&mut counts[..p], order, place % same);
    Some(Jet {
        dep: (place / same) as u8,
        counts,
    })
}
