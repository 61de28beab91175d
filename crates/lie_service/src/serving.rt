// Connections served one after the other over a keeper.
ghost use Rattle.std.specs.Prelude.{◌≡◌, ◌≤◌, ℕ, IsTrue, IsFalse};
ghost use Rattle.lie_analysis.specs.Limits.{greatest_budget};
ghost use Rattle.lie_outer.specs.Causes.{RoseByOne};
ghost use Rattle.lie_serve.specs.Replies.{kept};
ghost use Rattle.lie_service.specs.Entries.{LeavesEntries};
ghost use Rattle.lie_service.specs.Headline.{IsGood, IsGoodAnswer};
ghost use Rattle.lie_service.specs.Orders.{KeepsHonest};
ghost use Rattle.lie_service.specs.Serving.{ServesOpen, ServesAll, ServesStep};

use crate::desk::StudyDesk;
use lie_outer::{Keeper, Link, LinkFail};
use lie_serve::{self as connections, Served};
use std::alloc::Global;

/// Serves the open connection by the desk over a keeper, whose runs make at most so many steps.
pub fn serve_one<K: Keeper, L: Link>(
    alloc: Global,
    budget: u64,
    keeper: &mut K,
    link: &mut L,
) -> Served
    requires is_open { IsTrue (L.line link.old).is_open }
    requires few { budget ≤ greatest_budget }

    // The answer is the one that is due to the bytes that came, by the rows, or that for want of memory.
    ensures serves { ServesOpen budget (kept (K.held keeper.old) (K.fault_count keeper.old))
        (kept (K.held keeper.new) (K.fault_count keeper.new)) (L.line link.old) (L.line link.new) result }

    // A good answer to an analysis or a study is the report of the symmetries of the request's body.
    ensures report { (status : ℕ) → result ≡ Served.Answered status → IsGood status
        → IsGoodAnswer budget status (kept (K.held keeper.old) (K.fault_count keeper.old)) (L.line link.old) (L.line link.new) }

    // A fault of the keeper is answered only where its count rose.
    ensures fault { result ≡ Served.Answered 503 → RoseByOne (K.fault_count keeper.old) (K.fault_count keeper.new) }

    // Honest rows stay honest.
    ensures honest { KeepsHonest (K.held keeper.old) (K.held keeper.new) }

    // The connection stays open.
    ensures still_open { IsTrue (L.line link.new).is_open }
{
    connections::serve_one(alloc, &StudyDesk { budget }, keeper, link)
}

// Opens the next connection, serves it and closes it.
fn serve_next<K: Keeper, L: Link>(
    alloc: Global,
    budget: u64,
    keeper: &mut K,
    link: &mut L,
) -> Result<(), LinkFail>
    requires closed { IsFalse (L.line link.old).is_open }
    requires few { budget ≤ greatest_budget }
    ensures serves { ServesStep budget (kept (K.held keeper.old) (K.fault_count keeper.old))
        (kept (K.held keeper.new) (K.fault_count keeper.new)) (L.line link.old) (L.line link.new) result }
    ensures honest { KeepsHonest (K.held keeper.old) (K.held keeper.new) }
    ensures still_closed { IsFalse (L.line link.new).is_open }
{
    match link.next(alloc) {
        Ok(()) => {
            let _ = serve_one(alloc, budget, keeper, link);
            link.close();
            Ok(())
        }
        Err(fail) => Err(fail),
    }
}

// Serves so many connections, one after the other.
fn serve_each<K: Keeper, L: Link>(
    alloc: Global,
    count: u32,
    budget: u64,
    keeper: &mut K,
    link: &mut L,
) -> Result<(), LinkFail>
    requires closed { IsFalse (L.line link.old).is_open }
    requires few { budget ≤ greatest_budget }
    ensures serves { ServesAll budget count (kept (K.held keeper.old) (K.fault_count keeper.old))
        (kept (K.held keeper.new) (K.fault_count keeper.new)) (L.line link.old) (L.line link.new) result }
    ensures honest { KeepsHonest (K.held keeper.old) (K.held keeper.new) }
    ensures still_closed { IsFalse (L.line link.new).is_open }
{
    let mut done = 0;
    while done < count {
        match serve_next(alloc, budget, keeper, link) {
            Ok(()) => done += 1,
            Err(fail) => return Err(fail),
        }
    }
    Ok(())
}

/// Listens at the address and serves so many connections, one after the other. An error where listening, or opening a connection, fails
/// or finds no memory; what a connection meets ends that connection alone.
pub fn serve<K: Keeper, L: Link>(
    alloc: Global,
    address: &str,
    count: u32,
    budget: u64,
    keeper: &mut K,
    link: &mut L,
) -> Result<(), LinkFail>
    requires closed { IsFalse (L.line link.old).is_open }
    requires few { budget ≤ greatest_budget }

    // Each connection is served by the rows that the ones before left.
    ensures serves { ServesAll budget count (kept (K.held keeper.old) (K.fault_count keeper.old))
        (kept (K.held keeper.new) (K.fault_count keeper.new)) (L.line link.old) (L.line link.new) result }

    // Each leaves one entry among the closed ones: the answer that is due to its bytes, or a part from the front of one; at most as many
    // are faults of the keeper as its count rose by, and at most as many are cut as the link's counts rose by.
    ensures entries { LeavesEntries budget count (kept (K.held keeper.old) (K.fault_count keeper.old))
        (kept (K.held keeper.new) (K.fault_count keeper.new)) (L.line link.old) (L.line link.new) result }

    // Honest rows stay honest.
    ensures honest { KeepsHonest (K.held keeper.old) (K.held keeper.new) }

    // No connection is left open.
    ensures still_closed { IsFalse (L.line link.new).is_open }
{
    match link.listen(alloc, address) {
        Ok(()) => serve_each(alloc, count, budget, keeper, link),
        Err(fail) => Err(fail),
    }
}
