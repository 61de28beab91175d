// What is known of every system.
ghost use Rattle.std.specs.Prelude.{◌+◌, ◌<◌, ◌^◌};
ghost use Rattle.lie_systems.specs.ValidSystems.{IsValid};

use lie_lin::LinSystem;

/// A system is valid, and its next number has 32 bits, which becomes known where this is called.
pub fn system_is_valid(system: &LinSystem)
    ensures valid { IsValid (system.now.space.p + system.now.space.q) system.now.system }
    ensures next { system.now.system.next < 2 ^ 32 }
{
    let _ = system.space();
    let _ = system.next();
}
