// The derivative that stands alone before the sign `=`.
ghost use Rattle.std.specs.Prelude.{◌≡◌, ◌+◌, length, option_map, IfSome};
ghost use Rattle.lie_jet.specs.Jets.{coordinate_of, IsJet};
ghost use Rattle.lie_file.specs.Leads.{not_zeros, lead_of};
ghost use Rattle.lie_jet.specs.Limits.{greatest_jet_order};

use lie_jet::{Jet, Space};
use lie_scan::coordinate::{Variable, coordinate_at};
use lie_scan::runs::after_blanks;

// Whether some count is not 0.
fn not_zeros(counts: &[u8]) -> bool
    ensures { result ≡ not_zeros counts.now }
{
    for count in counts {
        if *count != 0 {
            return true;
        }
    }
    false
}

/// The derivative that stands alone before the sign `=`.
#[tactic(auto, unfolding(crate::specs::Leads::lead_of))]
pub fn lead_of(space: Space, names: &[u8], text: &[u8]) -> Option<Jet>
    requires { length names.now ≡ space.p + space.q }
    ensures value { option_map (coordinate_of space) result ≡ lead_of space names.now text.now }
    ensures jet { IfSome result (IsJet space greatest_jet_order) }
{
    match coordinate_at(space, names, after_blanks(text)) {
        Ok((Variable::Dependent(jet), rest)) => match after_blanks(rest) {
            [b'=', ..] if not_zeros(&jet.counts[..usize::from(space.p)]) => Some(jet),
            _ => None,
        },
        _ => None,
    }
}
