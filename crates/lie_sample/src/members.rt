// The lines of the members of the family, one after the other.
ghost use Rattle.std.specs.Prelude.{◌≡◌, ◌≤◌, IfOk, IfErr};
ghost use Rattle.lie_analysis.specs.Limits.{greatest_budget};
ghost use Rattle.lie_work.specs.declared.outcome.Outcome.{Outcome as AnOutcome};
ghost use Rattle.lie_work.specs.Analyse.{IsAnalyseRefusal, IsAnalyseDue};
ghost use Rattle.lie_work.specs.Outcomes.{IsRefusalOr};
ghost use Rattle.lie_work.specs.Work.{IsMade, IsEnded};
ghost use Rattle.lie_sample.specs.Family.{family_file as file_of, least_member, greatest_member};
ghost use Rattle.lie_sample.specs.Members.{IsMemberLine, LeavesLine, LeavesLines, IsSampleDue};

use crate::family::{MIN_MEMBER, family_file};
use crate::numbers::numbers_line;
use lie_outer::Sink;
use lie_work::analyse::analysis_of;
use lie_work::solved_file::solved_file;
use lie_work::{Failure, NoText, Outcome, put_outcome};
use std::alloc::Global;

// The line of the k-th member, by a run of at most so many steps, or why there is none.
fn member_line(alloc: Global, k: u64, budget: u64) -> Result<Vec<u8>, NoText>
    requires few { budget ≤ greatest_budget }
    requires member { k ≤ greatest_member }
    ensures line { IfOk result (λ line. IsMemberLine budget k line.items) }
    ensures cause { IfErr result (IsRefusalOr (IsAnalyseRefusal (file_of k) budget)) }
    ensures due { (due : AnOutcome) → IsAnalyseDue (file_of k) budget due → IsMade due result }
{
    let file = family_file(alloc, k)?;
    let solved = match solved_file(alloc, &file) {
        Ok(solved) => solved,
        Err(none) => return Err(none),
    };
    let analysis = match analysis_of(alloc, &solved, budget) {
        Ok(analysis) => analysis,
        Err(none) => return Err(none),
    };
    Ok(numbers_line(alloc, k, &analysis.system, &analysis.found)?)
}

// Puts the line of the k-th member.
fn put_member<O: Sink>(alloc: Global, k: u64, budget: u64, out: &mut O) -> Outcome
    requires few { budget ≤ greatest_budget }
    requires member { k ≤ greatest_member }
    ensures out { LeavesLine O.taken O.fault_count O.starved_count out.old out.new budget k result }
    ensures due { (due : AnOutcome) → IsAnalyseDue (file_of k) budget due → IsEnded due result }
{
    match member_line(alloc, k, budget) {
        Ok(line) => put_outcome(out.put(alloc, &line)),
        Err(NoText::Refused(refusal)) => Outcome::Refused(refusal),
        Err(NoText::NoMemory) => Outcome::Failed(Failure::NoMemory),
    }
}

/// Puts a line for each member of the family up to the last: how many unknowns, remaining equations and generators the report of its
/// symmetries has, by a run of at most so many steps. The first refusal ends it, and then the lines of all lesser members stand in the
/// output.
pub fn sample<O: Sink>(alloc: Global, last: u64, budget: u64, out: &mut O) -> Outcome
    requires few { budget ≤ greatest_budget }
    requires least { least_member ≤ last }
    requires greatest { last ≤ greatest_member }

    // Done has put the lines of all members. A refusal is that of some member, and the lines of all lesser ones were put. A fault of
    // writing comes only where the count rose; it has put a part of the line that it came at, and so may want of memory.
    ensures out { LeavesLines O.taken O.fault_count O.starved_count out.old out.new last budget result }

    // Unless memory is wanting or the output fails, the refusal of the first member that has one is answered, and Done where none has.
    ensures due { (due : AnOutcome) → IsSampleDue last budget due → IsEnded due result }
{
    for k in MIN_MEMBER..last + 1 {
        match put_member(alloc, k, budget, out) {
            Outcome::Done => {}
            stopped => return stopped,
        }
    }
    Outcome::Done
}
