// A command of the desk: what it gives is put. A line that tells of a drop is made before the row goes.
ghost use Rattle.std.specs.Prelude.{◌≡◌, ◌≤◌, ℕ, List, Some, IfOk, IfSome};
ghost use Rattle.lie_analysis.specs.Limits.{greatest_budget};
ghost use Rattle.lie_outer.specs.Causes.{Rose};
ghost use Rattle.lie_outer.specs.Keeper.{Changes};
ghost use Rattle.lie_outer.specs.Names.{IsStudyName};
ghost use Rattle.lie_outer.specs.declared.rows.Row.{Row as ARow};
ghost use Rattle.lie_work.specs.declared.outcome.Outcome.{Outcome as AnOutcome};
ghost use Rattle.lie_desk.specs.Desk.{IsStudyRefusal, IsNameRefusal, ShowsReport};
ghost use Rattle.lie_desk.specs.Due.{IsStudyDue, IsNameDue};
ghost use Rattle.lie_desk.specs.Kept.{AreHonest};
ghost use Rattle.lie_app.specs.OnDesk.{not_given, HasRefusal, IsStudyText, IsStudyOutput, IsStudyRefused, IsStudyCommandDue};
ghost use Rattle.lie_app.specs.OnDesk.{PutsNames, PutsDropped, IsDeskOutput, IsRefusedOnDesk, IsDueOnDesk, LeavesRows};
ghost use Rattle.lie_app.specs.Outside.{outside};
ghost use Rattle.lie_app.specs.Run.{LeavesOut, IsStopped};
ghost use Rattle.lie_app.specs.Words.{desk_in_words, IsDeskReady};

use crate::on_file::TOO_LONG;
use crate::words::DeskCommand;
use lie_desk::{
    DeskFail, drop_study, dropped_text, list_names, names_text, show_report, study_file,
};
use lie_outer::{FileFail, Files, Keeper, Name, NoMemory, Sink};
use lie_scan::fault::MAX_BYTES;
use lie_work::{Failure, Outcome, Refusal, Source, put_outcome};
use std::alloc::Global;

// A call of the desk that gives nothing.
fn not_given(fail: DeskFail) -> Outcome
    ensures { result ≡ not_given fail }
{
    match fail {
        DeskFail::Refused(refusal) => Outcome::Refused(refusal),
        DeskFail::KeeperFault => Outcome::Failed(Failure::KeeperFault),
        DeskFail::NoMemory => Outcome::Failed(Failure::NoMemory),
    }
}

// The name that a word is.
fn name_of(alloc: Global, word: &str) -> Result<Name, NoMemory>
    requires { IsStudyName word.now }
    ensures { IfOk result (λ name. name ≡ word.now) }
{
    match Name::read(alloc, word.as_bytes())? {
        Some(name) => Ok(name),
        None => unreachable!(),
    }
}

// Studies the bytes of a file under a name, and puts the report.
fn study_bytes<O: Sink, K: Keeper>(
    alloc: Global,
    name: &Name,
    file: &[u8],
    budget: u64,
    out: &mut O,
    keeper: &mut K,
) -> Outcome
    requires { budget ≤ greatest_budget }
    ensures cause { HasRefusal (IsStudyRefusal name.now file.now budget (K.held keeper.old)) result }
    ensures read_fault { result ≡ Outcome.Failed Failure.ReadFault → ⊥ }
    ensures keeper_fault { result ≡ Outcome.Failed Failure.KeeperFault → Rose (K.fault_count keeper.old) (K.fault_count keeper.new) }
    ensures rows { LeavesRows (Rose (O.starved_count out.old) (O.starved_count out.new)) (K.held keeper.old) (K.held keeper.new) result }
    ensures honest { IfSome (K.held keeper.old) (λ rows. AreHonest rows → IfSome (K.held keeper.new) AreHonest) }
    ensures due { (rows : List ARow) (due : AnOutcome) → K.held keeper.old ≡ Some rows → IsStudyDue name.now file.now budget rows due
        → IsStopped due result }
    ensures out { LeavesOut O.taken O.fault_count O.starved_count out.old out.new
        (IsStudyText (K.held keeper.old) (K.held keeper.new) name.now file.now budget) result }
{
    match study_file(alloc, name, file, budget, keeper) {
        Ok(study) => put_outcome(out.put(alloc, study.report.bytes())),
        Err(fail) => not_given(fail),
    }
}

// Studies a file under a name, and puts the report.
fn study<F: Files, O: Sink, K: Keeper>(
    alloc: Global,
    name: &str,
    path: &str,
    budget: u64,
    files: &mut F,
    out: &mut O,
    keeper: &mut K,
) -> Outcome
    requires named { IsStudyName name.now }
    requires few { budget ≤ greatest_budget }
    ensures cause { HasRefusal (IsStudyRefused (outside (F.held files.old) (K.held keeper.old)) name.now path.now budget) result }
    ensures read_fault { result ≡ Outcome.Failed Failure.ReadFault → Rose (F.fault_count files.old) (F.fault_count files.new) }
    ensures kept { F.held files.new ≡ F.held files.old }
    ensures keeper_fault { result ≡ Outcome.Failed Failure.KeeperFault → Rose (K.fault_count keeper.old) (K.fault_count keeper.new) }
    ensures rows { LeavesRows (Rose (O.starved_count out.old) (O.starved_count out.new)) (K.held keeper.old) (K.held keeper.new) result }
    ensures honest { IfSome (K.held keeper.old) (λ rows. AreHonest rows → IfSome (K.held keeper.new) AreHonest) }
    ensures due { (due : AnOutcome) → IsStudyCommandDue (outside (F.held files.old) (K.held keeper.old)) name.now path.now budget due
        → IsStopped due result }
    ensures out { LeavesOut O.taken O.fault_count O.starved_count out.old out.new
        (IsStudyOutput (outside (F.held files.old) (K.held keeper.old)) (K.held keeper.new) name.now path.now budget) result }
{
    let Ok(name) = name_of(alloc, name) else {
        return Outcome::Failed(Failure::NoMemory);
    };
    match files.read(alloc, path, MAX_BYTES) {
        Ok(bytes) => study_bytes(alloc, &name, bytes.bytes(), budget, out, keeper),
        Err(FileFail::Missing) => Outcome::Refused(Refusal::Missing),
        Err(FileFail::TooLong) => Outcome::Refused(Refusal::Bad(Source::File, TOO_LONG)),
        Err(FileFail::Failed) => Outcome::Failed(Failure::ReadFault),
        Err(FileFail::NoMemory) => Outcome::Failed(Failure::NoMemory),
    }
}

// Puts all names, each with a line end.
fn list<O: Sink, K: Keeper>(alloc: Global, out: &mut O, keeper: &mut K) -> Outcome
    ensures cause { HasRefusal (λ refusal. ⊥) result }
    ensures read_fault { result ≡ Outcome.Failed Failure.ReadFault → ⊥ }
    ensures keeper_fault { result ≡ Outcome.Failed Failure.KeeperFault → Rose (K.fault_count keeper.old) (K.fault_count keeper.new) }
    ensures rows { K.held keeper.new ≡ K.held keeper.old }
    ensures out { LeavesOut O.taken O.fault_count O.starved_count out.old out.new
        (λ text. Changes (K.held keeper.old) (K.held keeper.new) (PutsNames text)) result }
{
    let names = match list_names(alloc, keeper) {
        Ok(names) => names,
        Err(fail) => return not_given(fail),
    };
    match names_text(alloc, &names) {
        Ok(text) => put_outcome(out.put(alloc, &text)),
        Err(NoMemory) => Outcome::Failed(Failure::NoMemory),
    }
}

// Puts the report that is kept under a name.
fn show<O: Sink, K: Keeper>(alloc: Global, name: &str, out: &mut O, keeper: &mut K) -> Outcome
    requires { IsStudyName name.now }
    ensures cause { HasRefusal (IsNameRefusal name.now (K.held keeper.old)) result }
    ensures read_fault { result ≡ Outcome.Failed Failure.ReadFault → ⊥ }
    ensures keeper_fault { result ≡ Outcome.Failed Failure.KeeperFault → Rose (K.fault_count keeper.old) (K.fault_count keeper.new) }
    ensures rows { K.held keeper.new ≡ K.held keeper.old }
    ensures due { (rows : List ARow) (due : AnOutcome) → K.held keeper.old ≡ Some rows → IsNameDue name.now rows due
        → IsStopped due result }
    ensures out { LeavesOut O.taken O.fault_count O.starved_count out.old out.new
        (λ text. Changes (K.held keeper.old) (K.held keeper.new) (ShowsReport name.now text)) result }
{
    let Ok(name) = name_of(alloc, name) else {
        return Outcome::Failed(Failure::NoMemory);
    };
    match show_report(alloc, &name, keeper) {
        Ok(report) => put_outcome(out.put(alloc, report.bytes())),
        Err(fail) => not_given(fail),
    }
}

// Takes the row of a name out, and puts a line that says so. The line is made before.
fn drop_named<O: Sink, K: Keeper>(alloc: Global, name: &str, out: &mut O, keeper: &mut K) -> Outcome
    requires { IsStudyName name.now }
    ensures cause { HasRefusal (IsNameRefusal name.now (K.held keeper.old)) result }
    ensures read_fault { result ≡ Outcome.Failed Failure.ReadFault → ⊥ }
    ensures keeper_fault { result ≡ Outcome.Failed Failure.KeeperFault → Rose (K.fault_count keeper.old) (K.fault_count keeper.new) }
    ensures rows { LeavesRows (Rose (O.starved_count out.old) (O.starved_count out.new)) (K.held keeper.old) (K.held keeper.new) result }
    ensures honest { IfSome (K.held keeper.old) (λ rows. AreHonest rows → IfSome (K.held keeper.new) AreHonest) }
    ensures due { (rows : List ARow) (due : AnOutcome) → K.held keeper.old ≡ Some rows → IsNameDue name.now rows due
        → IsStopped due result }
    ensures out { LeavesOut O.taken O.fault_count O.starved_count out.old out.new
        (λ text. Changes (K.held keeper.old) (K.held keeper.new) (PutsDropped name.now text)) result }
{
    let Ok(name) = name_of(alloc, name) else {
        return Outcome::Failed(Failure::NoMemory);
    };
    let Ok(line) = dropped_text(alloc, &name) else {
        return Outcome::Failed(Failure::NoMemory);
    };
    match drop_study(alloc, &name, keeper) {
        Ok(()) => put_outcome(out.put(alloc, &line)),
        Err(fail) => not_given(fail),
    }
}

/// Does what is asked of the desk.
pub fn on_desk<F: Files, O: Sink, K: Keeper>(
    alloc: Global,
    command: &DeskCommand<&str>,
    files: &mut F,
    out: &mut O,
    keeper: &mut K,
) -> Outcome
    requires { IsDeskReady (desk_in_words (λ w. w.now) command.now) }
    ensures cause { HasRefusal (IsRefusedOnDesk (outside (F.held files.old) (K.held keeper.old))
        (desk_in_words (λ w. w.now) command.now)) result }
    ensures read_fault { result ≡ Outcome.Failed Failure.ReadFault → Rose (F.fault_count files.old) (F.fault_count files.new) }
    ensures kept { F.held files.new ≡ F.held files.old }
    ensures keeper_fault { result ≡ Outcome.Failed Failure.KeeperFault → Rose (K.fault_count keeper.old) (K.fault_count keeper.new) }
    ensures rows { LeavesRows (Rose (O.starved_count out.old) (O.starved_count out.new)) (K.held keeper.old) (K.held keeper.new) result }
    ensures honest { IfSome (K.held keeper.old) (λ rows. AreHonest rows → IfSome (K.held keeper.new) AreHonest) }
    ensures due { (due : AnOutcome)
        → IsDueOnDesk (outside (F.held files.old) (K.held keeper.old)) (desk_in_words (λ w. w.now) command.now) due
        → IsStopped due result }
    ensures out { LeavesOut O.taken O.fault_count O.starved_count out.old out.new
        (IsDeskOutput (outside (F.held files.old) (K.held keeper.old)) (K.held keeper.new)
        (desk_in_words (λ w. w.now) command.now)) result }
{
    match command {
        DeskCommand::Study(name, path, budget) => study(
            alloc, name, path, *budget, files, out, keeper,
        ),
        DeskCommand::List => list(alloc, out, keeper),
        DeskCommand::Show(name) => show(alloc, name, out, keeper),
        DeskCommand::Drop(name) => drop_named(alloc, name, out, keeper),
    }
}
