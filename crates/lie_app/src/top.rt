// The call that does all that the program does: it performs the command, and tells the status.
ghost use Rattle.std.specs.Prelude.{◌≡◌, Some, IfSome, IsFalse};
ghost use Rattle.lie_outer.specs.Causes.{Rose, next_count};
ghost use Rattle.lie_app.specs.Words.{AnyCommand, texts, in_words, command_of, HasNumbers, IsReady};
ghost use Rattle.lie_work.specs.declared.outcome.Outcome.{Outcome as AnOutcome};
ghost use Rattle.lie_status.specs.Outcomes.{outcome_of};
ghost use Rattle.lie_app.specs.Outside.{outside};
ghost use Rattle.lie_app.specs.Run.{IsDue, HasCommandCause, HasCause, IsComplete, IsStopped};
ghost use Rattle.lie_app.specs.Run.{LeavesDesk, LeavesWordsDesk, LeavesLink, LeavesWordsLink, LeavesOutputOf, LeavesOutput, LeavesErr};
ghost use Rattle.lie_desk.specs.Kept.{AreHonest};
ghost use Rattle.lie_serve.specs.Replies.{kept};

use crate::on_desk::on_desk;
use crate::on_file::on_file;
use crate::on_link::on_link;
use crate::words::{Command, command_of};
use lie_outer::{Files, Keeper, Link, Sink};
use lie_sample::sample;
use lie_status::{Status, line, status_of};
use lie_work::{Failure, Outcome, Refusal};
use std::alloc::{AllocError, Global};

// Does what the command says.
fn obey<F: Files, O: Sink, K: Keeper, L: Link>(
    alloc: Global,
    command: &Command<&str>,
    files: &mut F,
    out: &mut O,
    keeper: &mut K,
    link: &mut L,
) -> Outcome
    requires few { HasNumbers command.now }
    requires closed { IsFalse (L.line link.old).is_open }
    requires ready { IsReady (in_words (λ w. w.now) command.now) }
    ensures cause { HasCommandCause (outside (F.held files.old) (K.held keeper.old)) (in_words (λ w. w.now) command.now) result }
    ensures read_fault { result ≡ Outcome.Failed Failure.ReadFault → Rose (F.fault_count files.old) (F.fault_count files.new) }
    ensures kept { F.held files.new ≡ F.held files.old }
    ensures keeper_fault { result ≡ Outcome.Failed Failure.KeeperFault → Rose (K.fault_count keeper.old) (K.fault_count keeper.new) }
    ensures link_fault { result ≡ Outcome.Failed Failure.LinkFault
        → (L.line link.new).counts.open_faults ≡ next_count (L.line link.old).counts.open_faults }
    ensures link { LeavesLink (kept (K.held keeper.old) (K.fault_count keeper.old))
        (kept (K.held keeper.new) (K.fault_count keeper.new)) (L.line link.old) (L.line link.new)
        (in_words (λ w. w.now) command.now) result }
    ensures still_closed { IsFalse (L.line link.new).is_open }
    ensures honest { IfSome (K.held keeper.old) (λ rows. AreHonest rows → IfSome (K.held keeper.new) AreHonest) }
    ensures desk { LeavesDesk (Rose (O.starved_count out.old) (O.starved_count out.new))
        (outside (F.held files.old) (K.held keeper.old)) (K.held keeper.new) (in_words (λ w. w.now) command.now) result }
    ensures due { (due : AnOutcome) → IsDue (outside (F.held files.old) (K.held keeper.old)) (in_words (λ w. w.now) command.now) due
        → IsStopped due result }
    ensures out { LeavesOutputOf O.taken O.fault_count O.starved_count out.old out.new
        (outside (F.held files.old) (K.held keeper.old)) (K.held keeper.new) (in_words (λ w. w.now) command.now) result }
{
    match command {
        Command::OnFile(path, asked) => on_file(alloc, path, asked, files, out),
        Command::OnDesk(asked) => on_desk(alloc, asked, files, out, keeper),
        Command::OnLink(address, count, budget) => {
            on_link(alloc, address, *count, *budget, out, keeper, link)
        }
        Command::Sample(last, budget) => sample(alloc, *last, *budget, out),
    }
}

// Does what the words say.
fn perform<F: Files, O: Sink, K: Keeper, L: Link>(
    alloc: Global,
    words: &[String],
    files: &mut F,
    out: &mut O,
    keeper: &mut K,
    link: &mut L,
) -> Outcome
    requires { IsFalse (L.line link.old).is_open }
    ensures cause { HasCause (outside (F.held files.old) (K.held keeper.old)) (command_of (texts words.now)) result }
    ensures read_fault { result ≡ Outcome.Failed Failure.ReadFault → Rose (F.fault_count files.old) (F.fault_count files.new) }
    ensures kept { F.held files.new ≡ F.held files.old }
    ensures keeper_fault { result ≡ Outcome.Failed Failure.KeeperFault → Rose (K.fault_count keeper.old) (K.fault_count keeper.new) }
    ensures link_fault { result ≡ Outcome.Failed Failure.LinkFault
        → (L.line link.new).counts.open_faults ≡ next_count (L.line link.old).counts.open_faults }
    ensures link { LeavesWordsLink (kept (K.held keeper.old) (K.fault_count keeper.old))
        (kept (K.held keeper.new) (K.fault_count keeper.new)) (L.line link.old) (L.line link.new) (command_of (texts words.now)) result }
    ensures still_closed { IsFalse (L.line link.new).is_open }
    ensures honest { IfSome (K.held keeper.old) (λ rows. AreHonest rows → IfSome (K.held keeper.new) AreHonest) }
    ensures desk { LeavesWordsDesk (Rose (O.starved_count out.old) (O.starved_count out.new))
        (outside (F.held files.old) (K.held keeper.old)) (K.held keeper.new) (command_of (texts words.now)) result }
    ensures due { (c : AnyCommand) (due : AnOutcome) → command_of (texts words.now) ≡ Some c
        → IsDue (outside (F.held files.old) (K.held keeper.old)) c due → IsStopped due result }
    ensures out { LeavesOutput O.taken O.fault_count O.starved_count out.old out.new
        (outside (F.held files.old) (K.held keeper.old)) (K.held keeper.new) (command_of (texts words.now)) result }
{
    match command_of(alloc, words) {
        Ok(Some(command)) => obey(alloc, &command, files, out, keeper, link),
        Ok(None) => Outcome::Refused(Refusal::Usage),
        Err(AllocError) => Outcome::Failed(Failure::NoMemory),
    }
}

// Puts the line of the status. What is taken of it changes nothing.
fn tell<E: Sink>(alloc: Global, status: &Status, err: &mut E)
    ensures { LeavesErr E.taken E.fault_count E.starved_count E.put_count err.old err.new status.now }
{
    if !matches!(status, Status::Done) {
        let line = line(status);
        let _ = err.put(alloc, line.as_str().as_bytes());
    }
}

/// Does what the words say, and answers how it went. The words leave out the program's own name; `command_of` says which command they
/// are: one on a file, one of the desk, a sample of the growing family, or a service over the link, on which no connection may be open.
/// What it puts goes to `out`, and the line of any status but `Done` to `err`. A report of `determine` has the determining equations of
/// the file's system: the conditions under which a vector field meets its invariance condition (Olver, "Applications of Lie Groups to
/// Differential Equations", sections 2.3 and 2.4); that of `analyse` has the fields themselves, by a system to which no rule applies.
pub fn run<F: Files, O: Sink, E: Sink, K: Keeper, L: Link>(
    alloc: Global,
    words: &[String],
    files: &mut F,
    out: &mut O,
    err: &mut E,
    keeper: &mut K,
    link: &mut L,
) -> Status
    requires { IsFalse (L.line link.old).is_open }

    // Usage comes exactly where the words are wrong, unless memory is wanting. Missing, Bad, Not and Past tell what is so of the file:
    // it is not there, it or the field has this first fault, its system has no solved form for this cause, an action of this step of
    // the work is past this limit.
    ensures cause { HasCause (outside (F.held files.old) (K.held keeper.old)) (command_of (texts words.now)) (outcome_of result) }

    // A fault of reading comes only where the count rose.
    ensures read_fault { result ≡ Status.ReadFault → Rose (F.fault_count files.old) (F.fault_count files.new) }

    // The files stay as they were.
    ensures kept { F.held files.new ≡ F.held files.old }

    // A fault of the keeper comes only where the count rose.
    ensures keeper_fault { result ≡ Status.KeeperFault → Rose (K.fault_count keeper.old) (K.fault_count keeper.new) }

    // A fault of the link comes only where a call to listen or to open a connection failed, as its count shows.
    ensures link_fault { result ≡ Status.LinkFault
        → (L.line link.new).counts.open_faults ≡ next_count (L.line link.old).counts.open_faults }

    // Connections are served by a service alone: each of them by the rows that the ones before left, and all of them where it is done.
    ensures link { LeavesWordsLink (kept (K.held keeper.old) (K.fault_count keeper.old))
        (kept (K.held keeper.new) (K.fault_count keeper.new)) (L.line link.old) (L.line link.new)
        (command_of (texts words.now)) (outcome_of result) }

    // No connection is left open.
    ensures still_closed { IsFalse (L.line link.new).is_open }

    // Honest rows stay honest: names differ, and each row keeps the canonical text of a file and the report of its symmetries.
    ensures honest { IfSome (K.held keeper.old) (λ rows. AreHonest rows → IfSome (K.held keeper.new) AreHonest) }

    // Commands on a file, refusals and faults leave the rows; a command of the desk whose output finds no memory may have left them as it
    // does where it is done. What it does with them is told with its output.
    ensures desk { LeavesWordsDesk (Rose (O.starved_count out.old) (O.starved_count out.new))
        (outside (F.held files.old) (K.held keeper.old)) (K.held keeper.new) (command_of (texts words.now)) (outcome_of result) }

    // Done has put the report of the file, or the line of the check. A fault of writing comes only where the count rose, and has put
    // a part from the front of it. Any other status has put nothing, unless the output found no memory; but the lines that a sample has
    // put stay, whatever ends it.
    ensures out { LeavesOutput O.taken O.fault_count O.starved_count out.old out.new
        (outside (F.held files.old) (K.held keeper.old)) (K.held keeper.new) (command_of (texts words.now)) (outcome_of result) }

    // Unless memory is wanting or a count rises: Missing where the file is not there; Bad with the first fault where the file, or
    // the field behind a solved form, has one; Not with its cause where there is no solved form; Past with its step where the actions
    // of that step are not within the limits; and Done where nothing of this is so.
    ensures complete { IsComplete (outside (F.held files.old) (K.held keeper.old)) (command_of (texts words.now))
        (Rose (F.fault_count files.old) (F.fault_count files.new))
        (Rose (O.fault_count out.old) (O.fault_count out.new))
        (Rose (K.fault_count keeper.old) (K.fault_count keeper.new))
        ((L.line link.new).counts.open_faults ≡ next_count (L.line link.old).counts.open_faults) (outcome_of result) }

    // Done has put nothing here. The line of any other status was put in one call, whatever memory there is: all of it is taken, or
    // a part from its front where a count rose.
    ensures err { LeavesErr E.taken E.fault_count E.starved_count E.put_count err.old err.new result }
{
    let outcome = perform(alloc, words, files, out, keeper, link);
    let status = status_of(outcome);
    tell(alloc, &status, err);
    status
}
