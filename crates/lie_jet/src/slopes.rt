// What variables become when they are derived.
ghost use Rattle.std.specs.Prelude.{◌≡◌, ◌<◌, take};
ghost use Rattle.lie_math.specs.Counts.{raise};
ghost use Rattle.lie_math.specs.Polynomial.{variable};
ghost use Rattle.lie_geometry.specs.Coordinates.{coordinates_up_to, jet as jet_at};
ghost use Rattle.lie_geometry.specs.Prolongation.{total_derivative};
ghost use Rattle.lie_jet.specs.Limits.{greatest_jet_order};
ghost use Rattle.lie_jet.specs.Jets.{coordinate_of, IsJet};
ghost use Rattle.lie_jet.specs.Slopes.{IsSlope};

use crate::jet::Jet;
use crate::numbering::{jet_number, jet_of};
use crate::space::Space;
use lie_ring::Mono;
use std::alloc::Global;

/// The jet, derived once more by the independent variable `i`, which lies below p.
pub fn raise_jet(space: Space, jet: &Jet, i: u8) -> Jet
    requires within { i < space.p }
    requires jet { IsJet space 11 jet.now }
    ensures jet { IsJet space greatest_jet_order result }
    ensures raised { coordinate_of space result ≡ jet_at jet.now.dep (raise i (take space.p jet.now.counts)) }
{
    let mut raised = *jet;
    raised.counts[usize::from(i)] += 1;
    raised
}

/// What the variable becomes: None where that is 0, and else the monomial. The variable is independent or a jet of order at most 11.
/// It takes no memory.
pub fn slope_of(alloc: Global, space: Space, i: u8, var: u32) -> Option<Mono>
    requires within { i < space.p }
    requires low { var < coordinates_up_to space 11 }
    ensures { IsSlope result (total_derivative space i (variable var)) }
{
    match jet_of(space, var) {
        Some(jet) => {
            let number = jet_number(space, &raise_jet(space, &jet, i));
            Some(Mono::variable(alloc, number))
        }
        None => {
            if var == u32::from(i) {
                Some(Mono::one(alloc))
            } else {
                None
            }
        }
    }
}
