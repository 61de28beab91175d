// Unknowns that are not derived, and components of fields.
ghost use Rattle.std.specs.Prelude.{◌≡◌, ◌+◌, ◌≤◌, []};
ghost use Rattle.lie_jet.specs.Derivatives.{derivative_of};

use lie_jet::{Der, Space, space_is_small};

/// An unknown that is not derived.
pub fn plain(unknown: u32) -> Der
    ensures { derivative_of result ≡ record { unknown = unknown; counts = [] } }
{
    Der {
        unknown,
        counts: [0; 8],
    }
}

/// How many components a field has: one for each variable, independent or dependent.
pub fn count_components(space: Space) -> u8
    ensures count { result ≡ space.p + space.q }
    ensures few { 2 ≤ result }
    ensures low { result ≤ 8 }
{
    space_is_small(space);
    space.p + space.q
}
