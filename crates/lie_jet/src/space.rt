// The numbers of variables.
ghost use Rattle.lie_jet.specs.Jets.{IsSmall};

use std::marker::Model;

/// The numbers of independent and of dependent variables, 1 to 4 each.
#[derive(Clone, Copy, PartialEq, Eq, Debug)]
pub struct Space {
    /// How many independent variables there are.
    pub p: u8,
    /// How many dependent variables there are.
    pub q: u8,
}

impl Model for Space {
    ghost use Rattle.std.specs.Prelude.{◌≤◌};
    ghost use Rattle.lie_geometry.specs.Coordinates as coordinates;
    ghost use Rattle.lie_jet.specs.Limits.{greatest_variable_count};

    ghost Value = { coordinates.Space };

    ghost view = { λ s. record { p = s.p; q = s.q } };

    ghost invariant = { λ s. (1 ≤ s.p) × (s.p ≤ greatest_variable_count) × (1 ≤ s.q) × (s.q ≤ greatest_variable_count) };

    ghost inverse = { λ s. record { p = s.p; q = s.q } };
}

/// A space has 1 to 4 variables of each kind, which becomes known where this is called.
pub fn space_is_small(space: Space)
    ensures { IsSmall space }
{}
