// The calls of the desk over a keeper, each with the reply that tells it.
ghost use Rattle.std.specs.Prelude.{◌≤◌, ℕ, List, Option};
ghost use Rattle.lie_analysis.specs.Limits.{greatest_budget};
ghost use Rattle.lie_http.specs.declared.orders.Order.TheVariants as orders;
ghost use Rattle.lie_outer.specs.declared.rows.Row.{Row as ARow};
ghost use Rattle.lie_service.specs.Calls.{Calls};
ghost use Rattle.lie_service.specs.Orders.{IsAnalysisAnswer};

use crate::replies::{not_given, study_reply};
use lie_desk::{DeskFail, drop_study, list_names, show_report, study_file};
use lie_outer::{Keeper, Name, NoMemory};
use lie_serve::Reply;
use lie_work::{FileCommand, NoText, text_of};
use std::alloc::Global;

// The report of the symmetries of a body.
fn analysis_of(alloc: Global, body: &[u8], budget: u64) -> Result<Vec<u8>, DeskFail>
    requires { budget ≤ greatest_budget }
    ensures { (held : Option (List ARow)) → IsAnalysisAnswer budget held held body.now result }
{
    match text_of(alloc, &FileCommand::Analyse(budget), body) {
        Ok(report) => Ok(report),
        Err(NoText::Refused(refusal)) => Err(DeskFail::Refused(refusal)),
        Err(NoText::NoMemory) => Err(DeskFail::NoMemory),
    }
}

/// Analyses a body.
pub(crate) fn analyse(alloc: Global, body: &[u8], budget: u64) -> Result<Reply, NoMemory>
    requires { budget ≤ greatest_budget }
    ensures { (held : Option (List ARow)) (count : ℕ) → Calls budget held held count count orders.Analyse body.now result }
{
    match analysis_of(alloc, body, budget) {
        Ok(report) => Ok(Reply::Analysis(report)),
        Err(fail) => not_given(alloc, fail),
    }
}

/// Studies a body under a name.
pub(crate) fn study<K: Keeper>(
    alloc: Global,
    name: &Name,
    body: &[u8],
    budget: u64,
    keeper: &mut K,
) -> Result<Reply, NoMemory>
    requires { budget ≤ greatest_budget }
    ensures { Calls budget (K.held keeper.old) (K.held keeper.new) (K.fault_count keeper.old) (K.fault_count keeper.new)
        (orders.Study name.now) body.now result }
{
    match study_file(alloc, name, body, budget, keeper) {
        Ok(study) => Ok(study_reply(study)),
        Err(fail) => not_given(alloc, fail),
    }
}

/// Lists the names of all studies.
pub(crate) fn list<K: Keeper>(alloc: Global, keeper: &mut K) -> Result<Reply, NoMemory>
    ensures { (budget : ℕ) (body : List ℕ) → Calls budget (K.held keeper.old) (K.held keeper.new) (K.fault_count keeper.old)
        (K.fault_count keeper.new) orders.List body result }
{
    match list_names(alloc, keeper) {
        Ok(names) => Ok(Reply::Names(names)),
        Err(fail) => not_given(alloc, fail),
    }
}

/// Shows the study of a name.
pub(crate) fn show<K: Keeper>(alloc: Global, name: &Name, keeper: &mut K) -> Result<Reply, NoMemory>
    ensures { (budget : ℕ) (body : List ℕ) → Calls budget (K.held keeper.old) (K.held keeper.new) (K.fault_count keeper.old)
        (K.fault_count keeper.new) (orders.Show name.now) body result }
{
    match show_report(alloc, name, keeper) {
        Ok(report) => Ok(Reply::Report(report)),
        Err(fail) => not_given(alloc, fail),
    }
}

/// Drops the study of a name, which is copied before the row goes.
pub(crate) fn drop_named<K: Keeper>(
    alloc: Global,
    name: &Name,
    keeper: &mut K,
) -> Result<Reply, NoMemory>
    ensures { (budget : ℕ) (body : List ℕ) → Calls budget (K.held keeper.old) (K.held keeper.new) (K.fault_count keeper.old)
        (K.fault_count keeper.new) (orders.Drop name.now) body result }
{
    let dropped = name.copy(alloc)?;
    match drop_study(alloc, name, keeper) {
        Ok(()) => Ok(Reply::Dropped(dropped)),
        Err(fail) => not_given(alloc, fail),
    }
}
