// Finite systems.
ghost use Rattle.std.specs.Prelude.{◌≡◌, IsTrue, ◌↔◌, []};
ghost use Rattle.lie_lin.specs.Systems.{unknown_of};
ghost use Rattle.lie_steps.specs.Runs.{IsFinite};

use lie_lin::{LinSystem, Unknown};

/// Whether an unknown depends on no variable.
fn is_constant(unknown: Unknown) -> bool
    ensures { IsTrue result ↔ ((unknown_of unknown).variables ≡ []) }
{
    unknown.vars == 0
}

/// Whether no equation is left and every unknown is a constant. It takes no memory.
pub fn finite(system: &LinSystem) -> bool
    ensures { IsTrue result ↔ IsFinite system.now.system }
{
    if system.equations().len() != 0 {
        return false;
    }
    for unknown in system.unknowns() {
        if !is_constant(*unknown) {
            return false;
        }
    }
    true
}
