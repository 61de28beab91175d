// The calls of the desk that need no file, over any keeper.
ghost use Rattle.std.specs.Prelude.{◌≡◌, List, Some, IfSome};
ghost use Rattle.lie_outer.specs.declared.rows.Row.{Row as ARow};
ghost use Rattle.lie_work.specs.declared.outcome.Outcome.{Outcome as AnOutcome};
ghost use Rattle.lie_desk.specs.Desk.{DeskAnswers, CountsDesk, HasDeskCause, ListsNames, ShowsReport, DropsStudy};
ghost use Rattle.lie_desk.specs.Desk.{IsNameRefusal, IsNoRefusal};
ghost use Rattle.lie_desk.specs.Due.{IsNameDue, IsGiven};
ghost use Rattle.lie_desk.specs.Kept.{AreHonest};

use crate::answers::{DeskFail, not_kept};
use lie_outer::{Keeper, MAX_ROWS, Name, Text};
use lie_work::Refusal;
use std::alloc::Global;

/// The names of all rows, in order of entry. It is never refused.
pub fn list_names<K: Keeper>(alloc: Global, keeper: &mut K) -> Result<Vec<Name>, DeskFail>
    ensures rows { DeskAnswers ListsNames (K.held keeper.old) (K.held keeper.new) result }
    ensures cause { HasDeskCause IsNoRefusal result }
    ensures count { CountsDesk (K.fault_count keeper.old) (K.fault_count keeper.new) result }
{
    match keeper.list(alloc, 0, MAX_ROWS) {
        Ok(names) => Ok(names),
        Err(fail) => Err(not_kept(fail)),
    }
}

/// The report that is kept under a name. It is missing exactly where no row has the name.
pub fn show_report<K: Keeper>(alloc: Global, name: &Name, keeper: &mut K) -> Result<Text, DeskFail>
    ensures rows { DeskAnswers (ShowsReport name.now) (K.held keeper.old) (K.held keeper.new) result }
    ensures cause { HasDeskCause (IsNameRefusal name.now (K.held keeper.old)) result }
    ensures count { CountsDesk (K.fault_count keeper.old) (K.fault_count keeper.new) result }
    ensures due { (rows : List ARow) (due : AnOutcome) → K.held keeper.old ≡ Some rows → IsNameDue name.now rows due → IsGiven due result }
{
    match keeper.get(alloc, name) {
        Ok(Some(row)) => Ok(row.report),
        Ok(None) => Err(DeskFail::Refused(Refusal::Missing)),
        Err(fail) => Err(not_kept(fail)),
    }
}

/// Takes the row of a name out. It is missing exactly where no row has the name. Honest rows stay honest.
pub fn drop_study<K: Keeper>(alloc: Global, name: &Name, keeper: &mut K) -> Result<(), DeskFail>
    ensures rows { DeskAnswers (DropsStudy name.now) (K.held keeper.old) (K.held keeper.new) result }
    ensures cause { HasDeskCause (IsNameRefusal name.now (K.held keeper.old)) result }
    ensures count { CountsDesk (K.fault_count keeper.old) (K.fault_count keeper.new) result }
    ensures due { (rows : List ARow) (due : AnOutcome) → K.held keeper.old ≡ Some rows → IsNameDue name.now rows due → IsGiven due result }
    ensures honest { IfSome (K.held keeper.old) (λ rows. AreHonest rows → IfSome (K.held keeper.new) AreHonest) }
{
    match keeper.drop_row(alloc, name) {
        Ok(true) => Ok(()),
        Ok(false) => Err(DeskFail::Refused(Refusal::Missing)),
        Err(fail) => Err(not_kept(fail)),
    }
}
