// The desk of the service over a keeper.
ghost use Rattle.std.specs.Prelude.{◌≤◌};
ghost use Rattle.std.proofs.Props.{props};
ghost use Rattle.lie_analysis.specs.Limits.{greatest_budget};
ghost use Rattle.lie_service.specs.Orders.{RepliesTo};

use crate::calls::{analyse, drop_named, list, show, study};
use lie_http::Order;
use lie_outer::{Keeper, NoMemory};
use lie_serve::{Desk, Reply};
use std::alloc::Global;

/// The desk, which gives every run the same budget.
#[derive(Clone, Copy)]
pub(crate) struct StudyDesk {
    /// The steps that a run may make.
    pub(crate) budget: u64,
    ghost few: { budget ≤ greatest_budget } by { Prim.hlevel props },
}

impl Desk for StudyDesk {
    ghost replies = { λ desk. RepliesTo desk.budget };

    fn obey<K: Keeper>(
        &self,
        alloc: Global,
        keeper: &mut K,
        order: &Order,
        body: &[u8],
    ) -> Result<Reply, NoMemory> {
        match order {
            Order::Analyse => analyse(alloc, body, self.budget),
            Order::List => list(alloc, keeper),
            Order::Study(name) => study(alloc, name, body, self.budget, keeper),
            Order::Show(name) => show(alloc, name, keeper),
            Order::Drop(name) => drop_named(alloc, name, keeper),
        }
    }
}
