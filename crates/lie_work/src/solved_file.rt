// The system of a file, with its solved form.
ghost use Rattle.std.specs.Prelude.{IfOk, IfErr};
ghost use Rattle.lie_system.specs.KeptSystems.{system_read};
ghost use Rattle.lie_solved.specs.SolvedForms.{solved_equations};
ghost use Rattle.lie_work.specs.Outcomes.{IsRefusalOr};
ghost use Rattle.lie_work.specs.SolvedFile.{IsSolvedFile, IsFileRefusal};

use crate::causes::{not_read, not_solved};
use crate::outcome::NoText;
use crate::source::Source;
use lie_file::read_system;
use lie_solved::{Solved, solve_form};
use std::alloc::Global;

/// The system of a file, with its solved form, or why there is none.
pub fn solved_file(alloc: Global, bytes: &[u8]) -> Result<Solved, NoText>
    ensures solved { IfOk result (λ s. IsSolvedFile bytes.now (system_read s.system) (solved_equations s.system.space s.rules.items)) }
    ensures cause { IfErr result (IsRefusalOr (IsFileRefusal bytes.now)) }
{
    let system = match read_system(alloc, bytes) {
        Ok(system) => system,
        Err(fail) => return Err(not_read(Source::File, fail)),
    };
    match solve_form(alloc, system) {
        Ok(solved) => Ok(solved),
        Err(fail) => Err(not_solved(fail)),
    }
}
