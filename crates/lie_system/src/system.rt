// Systems of equations.
ghost use Rattle.std.specs.Prelude.{◌≡◌, ◌≤◌, ◌+◌, length, map};
ghost use Rattle.std.specs.List.{AllByRecursion as Every};
ghost use Rattle.std.proofs.Props.{props};
ghost use Rattle.lie_jet.specs.Jets.{IsSmall};
ghost use Rattle.lie_system.specs.Equations.{equation_read, AreKept};
ghost use Rattle.lie_system.specs.Written.{AreDistinctLetters, HasWrittenSides};

use crate::equation::Equation;
use lie_bytes::Text;
use lie_jet::Space;

/// A system of equations that can be written.
#[derive(Drop)]
pub struct System {
    /// How many independent and dependent variables there are.
    pub space: Space,
    /// Their names, letters that differ, the independent and then the dependent ones.
    pub names: Text,
    /// The equations, 1 to 16, in coordinates of orders up to 6.
    pub equations: Vec<Equation>,
    pub ghost small: { IsSmall space },
    pub ghost named: { length names ≡ space.p + space.q },
    pub ghost letters: { AreDistinctLetters names } by { Prim.hlevel props },
    pub ghost some: { 1 ≤ length equations.items },
    pub ghost kept: { AreKept space equations.items } by { Prim.hlevel props },
    pub ghost sides: { Every (HasWrittenSides space) (map (equation_read space) equations.items) } by { Prim.hlevel props },
}
