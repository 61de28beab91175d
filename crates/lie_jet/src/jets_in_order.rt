// The jets in coordinate order.
ghost use Rattle.std.specs.Prelude.{◌≡◌, ◌≤◌, IfOk, take};
ghost use Rattle.lie_math.specs.Counts.{order as order_of_counts};
ghost use Rattle.lie_jet.specs.Limits.{greatest_jet_order};
ghost use Rattle.lie_jet.specs.Jets.{IsJet};
ghost use Rattle.lie_jet.specs.JetLists.{AreJetsUpTo};

use crate::jet::Jet;
use crate::numbering::jet_of;
use crate::ranks::sum_of_counts;
use crate::space::Space;
use lie_bytes::NoMemory;
use std::alloc::Global;

/// The jets of order 0 to `order`, at most 12, in coordinate order: the dependent variables first.
pub fn jets_up_to(alloc: Global, space: Space, order: u8) -> Result<Vec<Jet>, NoMemory>
    requires { order ≤ greatest_jet_order }
    ensures { IfOk result (λ jets. AreJetsUpTo space order jets.items) }
{
    let mut jets = Vec::new(alloc);
    let mut number = u32::from(space.p);
    while let Some(jet) = jet_of(space, number) {
        if order_of(space, &jet) > u32::from(order) {
            break;
        }
        jets.push(jet)?;
        number += 1;
    }
    Ok(jets)
}

/// How often the jet is derived, by all independent variables. The jet is one of the space, of an order of at most 12.
pub fn order_of(space: Space, jet: &Jet) -> u32
    requires { IsJet space greatest_jet_order jet.now }
    ensures { result ≡ order_of_counts (take space.p jet.now.counts) }
{
    sum_of_counts(&jet.counts[..usize::from(space.p)])
}
