// Jets derived once less.
ghost use Rattle.std.specs.Prelude.{◌≡◌, ◌<◌, [], ◌∷◌, suc, take, MatchOption};
ghost use Rattle.lie_math.specs.Counts.{order};
ghost use Rattle.lie_geometry.specs.Prolongation.{indices};
ghost use Rattle.lie_jet.specs.Limits.{greatest_jet_order};
ghost use Rattle.lie_jet.specs.Jets.{IsJet};
ghost use Rattle.lie_jet.specs.Lowered.{IsLowered};

use crate::jet::Jet;
use crate::space::Space;

/// The last variable by which the jet is derived, and the jet derived once less by it; None for a dependent variable itself.
pub fn lowered(space: Space, jet: &Jet) -> Option<(u8, Jet)>
    requires { IsJet space greatest_jet_order jet.now }
    ensures { MatchOption result (indices (take space.p jet.now.counts) ≡ []) (λ r. IsLowered space jet.now r.0 r.1) }
{
    let mut i = space.p;
    while i > 0 {
        i -= 1;
        if jet.counts[usize::from(i)] > 0 {
            let mut lower = *jet;
            lower.counts[usize::from(i)] -= 1;
            return Some((i, lower));
        }
    }
    None
}
