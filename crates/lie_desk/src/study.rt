// The study of a file under a name, over any keeper.
ghost use Rattle.std.specs.Prelude.{◌≡◌, ◌≢◌, ◌≤◌, ◌<◌, ◌++◌, ◌∷◌, [], ℕ, List, Some, None, true, length, IfOk, IfErr, IfSome};
ghost use Rattle.lie_system.specs.KeptSystems.{system_read};
ghost use Rattle.lie_solved.specs.SolvedForms.{solved_equations};
ghost use Rattle.lie_canonical.specs.CanonicalText.{canonical_text};
ghost use Rattle.lie_analysis.specs.Limits.{greatest_budget};
ghost use Rattle.lie_outer.specs.Rows.{row_named, greatest_row_count};
ghost use Rattle.lie_outer.specs.declared.rows.Row.{Row as ARow};
ghost use Rattle.lie_work.specs.Analyse.{IsSymmetriesReport, IsAnalyseRefusal};
ghost use Rattle.lie_work.specs.Outcomes.{IsRefusalOr};
ghost use Rattle.lie_work.specs.SolvedFile.{IsSolvedFile};
ghost use Rattle.lie_work.specs.declared.outcome.Outcome.{Outcome as AnOutcome};
ghost use Rattle.lie_desk.specs.Desk.{DeskAnswers, CountsDesk, HasDeskCause, StudiesFile, IsStudyRefusal, IsNewReport};
ghost use Rattle.lie_desk.specs.Due.{IsStudyDue, IsGiven};
ghost use Rattle.lie_desk.specs.Kept.{HasCanonicalText, HasReport, AreHonest};
ghost use Rattle.lie_desk.specs.Steps.{HasFile, IsSettled, Enters, IsPutRefusal};

use crate::answers::{DeskFail, Study, not_kept, not_made};
use crate::laws::{canonical_text_fixes_report, canonical_text_is_one};
use lie_analysis::laws::answers_differ;
use lie_canonical::canonical;
use lie_outer::{Keeper, Name, NoMemory, PutFail, Row, Text};
use lie_solved::Solved;
use lie_work::analyse::symmetries_of;
use lie_work::solved_file::solved_file;
use lie_work::{NoText, Refusal};
use std::alloc::Global;

// What a kept row gives to a file of this canonical text.
fn settle(row: Row, text: &Text) -> Result<Study, DeskFail>
    ensures { IsSettled row text.now result }
{
    if row.text.bytes() == text.bytes() {
        Ok(Study {
            report: row.report,
            is_new: false,
        })
    } else {
        Err(DeskFail::Refused(Refusal::Taken { text: row.text }))
    }
}

// Puts a row, whose name no row has, and gives its report.
fn enter<K: Keeper>(alloc: Global, row: Row, keeper: &mut K) -> Result<Study, DeskFail>
    requires { IfSome (K.held keeper.old) (λ rows. row_named rows row.name ≡ None) }
    ensures rows { DeskAnswers (Enters row) (K.held keeper.old) (K.held keeper.new) result }
    ensures cause { HasDeskCause (IsPutRefusal row (K.held keeper.old)) result }
    ensures count { CountsDesk (K.fault_count keeper.old) (K.fault_count keeper.new) result }
    ensures told { IfOk result (λ study. study.report ≡ row.report) }
{
    match keeper.put(alloc, &row) {
        Ok(()) => Ok(Study {
            report: row.report,
            is_new: true,
        }),
        Err(PutFail::Taken) => Err(DeskFail::Refused(Refusal::Taken {
            text: Text::empty(alloc),
        })),
        Err(PutFail::Full) => Err(DeskFail::Refused(Refusal::Full)),
        Err(PutFail::Failed) => Err(DeskFail::KeeperFault),
        Err(PutFail::NoMemory) => Err(DeskFail::NoMemory),
    }
}

// The report of the symmetries of a solved system, by a run of at most so many steps. It is ASCII.
fn report_of(alloc: Global, solved: &Solved, budget: u64) -> Result<Text, NoText>
    requires few { budget ≤ greatest_budget }
    requires file { HasFile (system_read solved.now.system) (solved_equations solved.now.system.space solved.now.rules.items) }
    ensures report { IfOk result (λ report. (file : List ℕ)
        → IsSolvedFile file (system_read solved.now.system) (solved_equations solved.now.system.space solved.now.rules.items)
        → IsSymmetriesReport file budget report) }
    ensures cause { IfErr result (λ none. (file : List ℕ)
        → IsSolvedFile file (system_read solved.now.system) (solved_equations solved.now.system.space solved.now.rules.items)
        → IsRefusalOr (IsAnalyseRefusal file budget) none) }
{
    let bytes = match symmetries_of(alloc, solved, budget) {
        Ok(bytes) => bytes,
        Err(none) => return Err(none),
    };
    match Text::of(alloc, &bytes)? {
        Some(report) => Ok(report),
        None => unreachable!(),
    }
}

// The study of a file whose name no row has.
fn study_anew<K: Keeper>(
    alloc: Global,
    name: &Name,
    solved: &Solved,
    text: Text,
    budget: u64,
    keeper: &mut K,
) -> Result<Study, DeskFail>
    requires few { budget ≤ greatest_budget }
    requires free { IfSome (K.held keeper.old) (λ rows. row_named rows name.now ≡ None) }
    requires file { HasFile (system_read solved.now.system) (solved_equations solved.now.system.space solved.now.rules.items) }
    requires canonical { text ≡ canonical_text (system_read solved.now.system) }
    ensures rows { (file : List ℕ)
        → IsSolvedFile file (system_read solved.now.system) (solved_equations solved.now.system.space solved.now.rules.items)
        → DeskAnswers (StudiesFile name.now file budget) (K.held keeper.old) (K.held keeper.new) result }
    ensures cause { (file : List ℕ)
        → IsSolvedFile file (system_read solved.now.system) (solved_equations solved.now.system.space solved.now.rules.items)
        → HasDeskCause (IsStudyRefusal name.now file budget (K.held keeper.old)) result }
    ensures count { CountsDesk (K.fault_count keeper.old) (K.fault_count keeper.new) result }
    ensures new { (file : List ℕ)
        → IsSolvedFile file (system_read solved.now.system) (solved_equations solved.now.system.space solved.now.rules.items)
        → IsNewReport file budget result }
{
    let report = match report_of(alloc, solved, budget) {
        Ok(report) => report,
        Err(none) => return Err(not_made(none)),
    };
    let name = name.copy(alloc)?;
    enter(alloc, Row { name, text, report }, keeper)
}

// A study, without what follows of its answer.
fn study_plainly<K: Keeper>(
    alloc: Global,
    name: &Name,
    file: &[u8],
    budget: u64,
    keeper: &mut K,
) -> Result<Study, DeskFail>
    requires { budget ≤ greatest_budget }
    ensures rows { DeskAnswers (StudiesFile name.now file.now budget) (K.held keeper.old) (K.held keeper.new) result }
    ensures cause { HasDeskCause (IsStudyRefusal name.now file.now budget (K.held keeper.old)) result }
    ensures count { CountsDesk (K.fault_count keeper.old) (K.fault_count keeper.new) result }
    ensures new { IsNewReport file.now budget result }
{
    let solved = match solved_file(alloc, file) {
        Ok(solved) => solved,
        Err(none) => return Err(not_made(none)),
    };
    let text = canonical(alloc, &solved.system)?;
    match keeper.get(alloc, name) {
        Ok(Some(row)) => settle(row, &text),
        Ok(None) => study_anew(alloc, name, &solved, text, budget, keeper),
        Err(fail) => Err(not_kept(fail)),
    }
}

/// Studies a file under a name. Where no row has the name, the run of the file's system is made, of at most so many steps, and a row with
/// the canonical text and the report is put. A row with the same text gives its report again: no run is made, and nothing changes. One
/// with another text is told, and kept.
pub fn study_file<K: Keeper>(
    alloc: Global,
    name: &Name,
    file: &[u8],
    budget: u64,
    keeper: &mut K,
) -> Result<Study, DeskFail>
    requires { budget ≤ greatest_budget }

    // The study is that of the desk; an answer without one leaves the rows.
    ensures rows { DeskAnswers (StudiesFile name.now file.now budget) (K.held keeper.old) (K.held keeper.new) result }

    // A refusal is of the file, of another text under the name, of the run, or of a full desk, and each comes only where it is so.
    ensures cause { HasDeskCause (IsStudyRefusal name.now file.now budget (K.held keeper.old)) result }

    // A fault of the keeper comes only where its count rose, and that by one.
    ensures count { CountsDesk (K.fault_count keeper.old) (K.fault_count keeper.new) result }

    // A new report is that of the symmetries of the file, whether the rows are told or not.
    ensures new { IsNewReport file.now budget result }

    // Over honest rows any report is, also one that was kept; and the rows stay honest.
    ensures report { IfSome (K.held keeper.old) (λ rows. AreHonest rows → IfOk result (λ study. HasReport file.now study.report)) }
    ensures honest { IfSome (K.held keeper.old) (λ rows. AreHonest rows → IfSome (K.held keeper.new) AreHonest) }

    // The answer that is due is given, unless the keeper fails or memory is wanting.
    ensures due { (rows : List ARow) (due : AnOutcome) → K.held keeper.old ≡ Some rows → IsStudyDue name.now file.now budget rows due
        → IsGiven due result }
{
    canonical_text_is_one();
    canonical_text_fixes_report();
    answers_differ();
    study_plainly(alloc, name, file, budget, keeper)
}
