// Equations.

use lie_jet::Jet;
use lie_poly::Flat;
use lie_ring::Whole;

/// An equation.
#[derive(Drop)]
pub struct Equation {
    /// The derivative that is the left side as written, where it is one alone.
    pub lead: Option<Jet>,
    /// The left side minus the right side.
    pub diff: Flat<Whole>,
}
