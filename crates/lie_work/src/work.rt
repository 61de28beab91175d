// The work of a command on a file: from the bytes to the text that is put.
ghost use Rattle.std.specs.Prelude.{IfOk, IfErr};
ghost use Rattle.lie_work.specs.declared.outcome.Outcome.{Outcome as AnOutcome};
ghost use Rattle.lie_work.specs.Outcomes.{IsRefusalOr};
ghost use Rattle.lie_work.specs.Commands.{file_in_words, HasFileNumbers};
ghost use Rattle.lie_work.specs.Work.{IsTextOf, IsWorkRefusal, IsWorkDue, IsMade};

use crate::analyse::symmetries_of;
use crate::checking::check_of;
use crate::command::FileCommand;
use crate::degree::degree_of;
use crate::determine::report_of;
use crate::outcome::NoText;
use crate::solved_file::solved_file;
use std::alloc::Global;

/// The text that a command puts for the bytes of its file, or why there is none.
pub fn text_of(alloc: Global, command: &FileCommand<&str>, bytes: &[u8]) -> Result<Vec<u8>, NoText>
    requires { HasFileNumbers command.now }
    ensures text { IfOk result (λ text. IsTextOf (file_in_words (λ w. w.now) command.now) bytes.now text.items) }
    ensures cause { IfErr result (IsRefusalOr (IsWorkRefusal (file_in_words (λ w. w.now) command.now) bytes.now)) }
    ensures due { (due : AnOutcome) → IsWorkDue (file_in_words (λ w. w.now) command.now) bytes.now due → IsMade due result }
{
    let solved = match solved_file(alloc, bytes) {
        Ok(solved) => solved,
        Err(none) => return Err(none),
    };
    match command {
        FileCommand::Determine => report_of(alloc, &solved),
        FileCommand::Check(field) => check_of(alloc, &solved, field.as_bytes()),
        FileCommand::Analyse(budget) => symmetries_of(alloc, &solved, *budget),
        FileCommand::Degree(highest) => degree_of(alloc, &solved, *highest),
    }
}
