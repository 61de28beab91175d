// Systems made of parts that may not be valid.
ghost use Rattle.std.specs.Prelude.{◌≡◌, ◌+◌, MatchOption, IfOk};
ghost use Rattle.lie_systems.specs.ValidSystems.{IsValid};
ghost use Rattle.lie_lin.specs.Systems.{system_of};

use crate::equation::LinEq;
use crate::system::{LinSystem, Unknown};
use crate::validity::is_valid;
use lie_bytes::NoMemory;
use lie_jet::Space;
use std::alloc::Global;

impl LinSystem {
    /// The system with these unknowns, equations and general forms; None exactly where they don't make a valid one.
    pub fn of_parts(
        alloc: Global,
        space: Space,
        unknowns: Vec<Unknown>,
        equations: Vec<LinEq>,
        general: Vec<LinEq>,
        next: u32,
    ) -> Result<Option<LinSystem>, NoMemory>
        ensures { IfOk result (λ made. MatchOption made
            (¬ (IsValid (space.p + space.q) (system_of unknowns.items equations.items general.items next)))
            (λ system. (system.space ≡ space) × (system.system ≡ system_of unknowns.items equations.items general.items next))) }
    {
        let valid = is_valid(
            alloc,
            space,
            unknowns.as_slice(),
            equations.as_slice(),
            general.as_slice(),
            next,
        )?;
        if !valid {
            return Ok(None);
        }
        Ok(Some(LinSystem::new(space, unknowns, equations, general, next)))
    }
}
