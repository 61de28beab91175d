// The service: connections are served, and how many is put.
ghost use Rattle.std.specs.Prelude.{◌≡◌, ◌≤◌, IsFalse, IfOk, IfSome};
ghost use Rattle.lie_analysis.specs.Limits.{greatest_budget};
ghost use Rattle.lie_desk.specs.Kept.{AreHonest};
ghost use Rattle.lie_outer.specs.Causes.{next_count};
ghost use Rattle.lie_serve.specs.Replies.{kept};
ghost use Rattle.lie_work.specs.Work.{IsEnded};
ghost use Rattle.lie_work.specs.declared.outcome.Outcome.TheVariants as outcomes;
ghost use Rattle.lie_app.specs.OnLink.{served_line, HasServiceCause, LeavesService};
ghost use Rattle.lie_app.specs.Run.{LeavesOut, IsStopped};

use itoa::Buffer;
use lie_outer::{Keeper, Link, LinkFail, NoMemory, Sink};
use lie_service::serve;
use lie_work::{Failure, Outcome, put_outcome};
use std::alloc::Global;

// The line that tells how many connections were served.
fn served_line(alloc: Global, count: u32) -> Result<Vec<u8>, NoMemory>
    ensures { IfOk result (λ line. line.items ≡ served_line count) }
{
    let mut buffer = Buffer::new();
    let mut line = Vec::new(alloc);
    line.extend_from_slice(b"served ")?;
    line.extend_from_slice(buffer.format(count).as_bytes())?;
    line.push(b'\n')?;
    Ok(line)
}

/// Serves so many connections at the address, one after the other, and puts how many. The line is made before the first of them.
pub fn on_link<O: Sink, K: Keeper, L: Link>(
    alloc: Global,
    address: &str,
    count: u32,
    budget: u64,
    out: &mut O,
    keeper: &mut K,
    link: &mut L,
) -> Outcome
    requires few { budget ≤ greatest_budget }
    requires closed { IsFalse (L.line link.old).is_open }
    ensures cause { HasServiceCause result }
    ensures link_fault { result ≡ Outcome.Failed Failure.LinkFault
        → (L.line link.new).counts.open_faults ≡ next_count (L.line link.old).counts.open_faults }
    ensures link { LeavesService budget count (kept (K.held keeper.old) (K.fault_count keeper.old))
        (kept (K.held keeper.new) (K.fault_count keeper.new)) (L.line link.old) (L.line link.new) result }
    ensures still_closed { IsFalse (L.line link.new).is_open }
    ensures honest { IfSome (K.held keeper.old) (λ rows. AreHonest rows → IfSome (K.held keeper.new) AreHonest) }
    ensures due { IsStopped outcomes.Done result }
    ensures out { LeavesOut O.taken O.fault_count O.starved_count out.old out.new (λ text. text ≡ served_line count) result }
{
    let Ok(line) = served_line(alloc, count) else {
        return Outcome::Failed(Failure::NoMemory);
    };
    match serve(alloc, address, count, budget, keeper, link) {
        Ok(()) => put_outcome(out.put(alloc, &line)),
        Err(LinkFail::Failed) => Outcome::Failed(Failure::LinkFault),
        Err(LinkFail::NoMemory) => Outcome::Failed(Failure::NoMemory),
    }
}
