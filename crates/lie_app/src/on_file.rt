// A command on a file: the file is read, and what the command makes of its bytes is put.
ghost use Rattle.std.specs.Prelude.{◌≡◌};
ghost use Rattle.lie_outer.specs.Causes.{Rose};
ghost use Rattle.lie_work.specs.declared.outcome.Outcome.{Outcome as AnOutcome};
ghost use Rattle.lie_app.specs.OnFile.{IsFileOutput, HasFileCause, IsDueOnFile};
ghost use Rattle.lie_app.specs.Run.{LeavesOut};
ghost use Rattle.lie_work.specs.Commands.{file_in_words, HasFileNumbers};
ghost use Rattle.lie_work.specs.Work.{IsTextOf, IsWorkDue, IsWorkOutcome, IsEnded};

use lie_outer::{FileFail, Files, Sink};
use lie_scan::fault::{BadFile, BadKind, MAX_BYTES};
use lie_work::{Failure, FileCommand, NoText, Outcome, Refusal, Source, put_outcome, text_of};
use std::alloc::Global;

/// The fault of a file that has more bytes.
pub const TOO_LONG: BadFile = BadFile {
    line: 1,
    column: 1,
    kind: BadKind::TooLong,
};

// Puts what the command makes of the bytes of its file.
fn answer<O: Sink>(alloc: Global, command: &FileCommand<&str>, bytes: &[u8], out: &mut O) -> Outcome
    requires { HasFileNumbers command.now }
    ensures cause { IsWorkOutcome (file_in_words (λ w. w.now) command.now) bytes.now result }
    ensures due { (due : AnOutcome) → IsWorkDue (file_in_words (λ w. w.now) command.now) bytes.now due → IsEnded due result }
    ensures out { LeavesOut O.taken O.fault_count O.starved_count out.old out.new
        (IsTextOf (file_in_words (λ w. w.now) command.now) bytes.now) result }
{
    match text_of(alloc, command, bytes) {
        Ok(text) => put_outcome(out.put(alloc, &text)),
        Err(NoText::Refused(refusal)) => Outcome::Refused(refusal),
        Err(NoText::NoMemory) => Outcome::Failed(Failure::NoMemory),
    }
}

/// Does what is asked of the file with this path.
pub fn on_file<F: Files, O: Sink>(
    alloc: Global,
    path: &str,
    command: &FileCommand<&str>,
    files: &mut F,
    out: &mut O,
) -> Outcome
    requires { HasFileNumbers command.now }
    ensures cause { HasFileCause (F.held files.old) path.now (file_in_words (λ w. w.now) command.now) result }
    ensures read_fault { result ≡ Outcome.Failed Failure.ReadFault → Rose (F.fault_count files.old) (F.fault_count files.new) }
    ensures kept { F.held files.new ≡ F.held files.old }
    ensures no_keeper { result ≡ Outcome.Failed Failure.KeeperFault → ⊥ }
    ensures due { (due : AnOutcome)
        → IsDueOnFile (F.held files.old) path.now (file_in_words (λ w. w.now) command.now) due → IsEnded due result }
    ensures out { LeavesOut O.taken O.fault_count O.starved_count out.old out.new
        (IsFileOutput (F.held files.old) path.now (file_in_words (λ w. w.now) command.now)) result }
{
    match files.read(alloc, path, MAX_BYTES) {
        Ok(bytes) => answer(alloc, command, bytes.bytes(), out),
        Err(FileFail::Missing) => Outcome::Refused(Refusal::Missing),
        Err(FileFail::TooLong) => Outcome::Refused(Refusal::Bad(Source::File, TOO_LONG)),
        Err(FileFail::Failed) => Outcome::Failed(Failure::ReadFault),
        Err(FileFail::NoMemory) => Outcome::Failed(Failure::NoMemory),
    }
}
