// The desk of the service, as a trait: what it replies to an order, and when it may give no reply.
ghost use Rattle.std.specs.Prelude.{ℕ, List};
ghost use Rattle.std.specs.declared.option.Option.{Option};
ghost use Rattle.lie_outer.specs.declared.rows.Row.{Row as ARow};
ghost use Rattle.lie_http.specs.declared.orders.Order.{Order as AnOrder};
ghost use Rattle.lie_serve.specs.declared.desk.Reply.{Reply as AReply};
ghost use Rattle.lie_serve.specs.Replies.{kept, RepliesCounted, Obeys};

use lie_http::Order;
use lie_outer::{Bytes, Keeper, Name, NoMemory, Text};
use std::alloc::Global;

/// What a desk replies to an order.
#[derive(Debug, Drop)]
pub enum Reply {
    /// The report of the body, which no row keeps.
    Analysis(Vec<u8>),
    /// A kept report.
    Report(Text),
    /// The report of a study, for which a row was put.
    NewReport(Text),
    /// The names of all rows, in order of entry.
    Names(Vec<Name>),
    /// The row of the name went.
    Dropped(Name),
    /// No row has the name.
    Missing,
    /// The name is kept with another text.
    Taken,
    /// The body is refused for the cause that the line tells.
    Refused(Bytes),
    /// There is no room for a further row.
    Full,
    /// The keeper failed, and that was counted.
    KeeperFault,
}

/// What orders are put to: it says what becomes of them over any keeper of studies.
pub trait Desk {
    /// What is replied to an order and the body that came with it, by the rows before and after, where they are told.
    ghost replies: { Self → Option (List ARow) → AnOrder → List ℕ → AReply → Option (List ARow) → Type 0 };

    /// Does what the order says. Where memory runs out, the rows are as before, or as after the order.
    fn obey<K: Keeper>(
        &self,
        alloc: Global,
        keeper: &mut K,
        order: &Order,
        body: &[u8],
    ) -> Result<Reply, NoMemory>
        ensures { Obeys (RepliesCounted (replies self.now)) (kept (K.held keeper.old) (K.fault_count keeper.old))
            (kept (K.held keeper.new) (K.fault_count keeper.new)) order.now body.now result };
}
