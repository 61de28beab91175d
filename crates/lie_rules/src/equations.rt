// The equation of a system at a place.
ghost use Rattle.std.specs.Prelude.{◌≡◌, ◌+◌, ◌<◌, length};
ghost use Rattle.lie_systems.specs.Normalised.{IsNormalised};
ghost use Rattle.lie_systems.specs.ValidSystems.{IsFormOf};
ghost use Rattle.lie_steps.specs.Equations.{equation};

use lie_lin::{LinEq, LinSystem};

/// The equation at a place.
pub fn equation_at(system: &LinSystem, place: usize) -> &LinEq
    requires { place < length system.now.system.equations }
    ensures equation { result.now ≡ equation system.now.system place }
    ensures normalised { IsNormalised result.now }
    ensures form { IsFormOf (system.now.space.p + system.now.space.q) system.now.system.unknowns result.now }
{
    let _ = system.space();
    &system.equations()[place]
}
