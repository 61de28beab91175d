// Systems in solved form, and why a system has none.
ghost use Rattle.std.specs.Prelude.{◌≡◌};
ghost use Rattle.std.proofs.Props.{props};
ghost use Rattle.lie_solved.specs.declared.solved.SolveFormFail.TheVariants as fails;
ghost use Rattle.lie_solved.specs.SolvedRules.{AreSolvedRules};

use lie_bytes::NoMemory;
use lie_jet::{Jet, JetPoly};
use lie_ring::Whole;
use lie_system::System;
use std::alloc::AllocFailed;

/// A system with its solved form.
#[derive(Drop)]
pub struct Solved {
    /// The system.
    pub system: System,
    /// A rule for each of its equations, in the same order.
    pub rules: Vec<LeadRule>,
    /// What the work with them asks: their number, the orders of what they have, positive coefficients.
    pub ghost ready: { AreSolvedRules system.space rules.items } by { Prim.hlevel props },
}

/// An equation solved for its lead: `c * lead = right`.
#[derive(Drop)]
pub struct LeadRule {
    /// The derivative that is replaced, of order 1 or more.
    pub lead: Jet,
    /// Its coefficient, which is positive.
    pub c: Whole,
    /// What the other side is. It does not have the lead.
    pub right: JetPoly,
}

/// Why an equation cannot be solved.
#[derive(Clone, Copy, PartialEq, Eq, Debug)]
pub enum NotKind {
    /// It has no derivative of order 1 or more.
    NoDerivative,
    /// It is not a number times its lead and terms without the lead.
    LeadNotLinear,
    /// An earlier equation has the same lead.
    LeadRepeated,
    /// Its right side has the lead of another equation.
    LeadInside,
}

/// Why a system has no solved form.
#[derive(Clone, Copy, PartialEq, Eq, Debug)]
pub enum SolveFormFail {
    /// The equation with this number, counted from 1, cannot be solved.
    Not(NotKind, u32),
    /// There was no memory.
    NoMemory,
}

impl From<NoMemory> for SolveFormFail {
    ghost from_gives = { λ _ fail. fail ≡ fails.NoMemory };

    fn from(_fail: NoMemory) -> SolveFormFail {
        SolveFormFail::NoMemory
    }
}

impl<T: Drop> From<AllocFailed<T>> for SolveFormFail {
    ghost from_gives = { λ _ fail. fail ≡ fails.NoMemory };

    fn from(_failed: AllocFailed<T>) -> SolveFormFail {
        SolveFormFail::NoMemory
    }
}
