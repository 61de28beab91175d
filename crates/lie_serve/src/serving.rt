// Serving the open connection.
ghost use Rattle.std.specs.Prelude.{◌≡◌, IsTrue, IfOk};
ghost use Rattle.lie_outer.specs.Causes.{RoseByOne};
ghost use Rattle.lie_http.specs.AnswerText.{IsServiceStatus};
ghost use Rattle.lie_serve.specs.Replies.{plain, kept, RepliesCounted};
ghost use Rattle.lie_serve.specs.Serving.{AnswersOrder, Decides, Sends, IsAnswerText, IsTextOf, IsFixed, Refuses, Serves, HasRisen};

use crate::desk::Desk;
use crate::replies::{answer_of, plain};
use lie_http::{
    Answer, Ask, Destination, HttpFault, Order, destination_of, read_request, write_answer,
    write_no_memory,
};
use lie_outer::{Keeper, Link, LinkFail, NoMemory};
use std::alloc::Global;

/// How serving a connection went.
#[derive(Clone, Copy, Debug, PartialEq, Eq)]
pub enum Served {
    /// An answer of the status was written.
    Answered(u16),
    /// The input ended before its first byte.
    Ended,
    /// The link failed.
    LinkFailed,
    /// The link found no memory for a write.
    LinkNoMemory,
}

// What is made of an order.
fn obey<D: Desk, K: Keeper>(
    alloc: Global,
    desk: &D,
    keeper: &mut K,
    order: &Order,
    body: &[u8],
) -> Result<Answer, NoMemory>
    ensures value { AnswersOrder (RepliesCounted (D.replies desk.now)) (kept (K.held keeper.old) (K.fault_count keeper.old))
        (kept (K.held keeper.new) (K.fault_count keeper.new)) order.now body.now result }
    ensures status { IfOk result (λ answer. IsServiceStatus answer.status) }
{
    match desk.obey(alloc, keeper, order, body) {
        Ok(reply) => answer_of(alloc, &reply),
        Err(fail) => Err(fail),
    }
}

// What is made of a request.
fn decide<D: Desk, K: Keeper>(
    alloc: Global,
    desk: &D,
    keeper: &mut K,
    ask: &Ask,
) -> Result<Answer, NoMemory>
    ensures value { Decides (RepliesCounted (D.replies desk.now)) (kept (K.held keeper.old) (K.fault_count keeper.old))
        (kept (K.held keeper.new) (K.fault_count keeper.new)) ask.now result }
    ensures status { IfOk result (λ answer. IsServiceStatus answer.status) }
{
    match destination_of(alloc, ask) {
        Ok(Destination::Desk(order)) => obey(alloc, desk, keeper, &order, ask.body.bytes()),
        Ok(Destination::NoSuchPath) => plain(alloc, 404, b"lie: no such path\n"),
        Ok(Destination::NoSuchMethod) => plain(alloc, 405, b"lie: no such method\n"),
        Err(fail) => Err(fail),
    }
}

// Writes the answer for want of memory.
fn send_no_memory<L: Link>(alloc: Global, link: &mut L) -> Served
    requires { IsTrue (L.line link.old).is_open }
    ensures { Sends (L.line link.old) (L.line link.new) IsFixed result }
{
    match write_no_memory(alloc, link) {
        Ok(()) => Served::Answered(500),
        Err(LinkFail::Failed) => Served::LinkFailed,
        Err(LinkFail::NoMemory) => Served::LinkNoMemory,
    }
}

// Says whether a count has risen, or stands at its end.
fn has_risen(before: u64, now: u64) -> bool
    ensures { HasRisen before now result }
{
    before < now || now == u64::MAX
}

// Writes the answer, and where there is no memory for it the one for want of memory.
fn send_answer<L: Link>(alloc: Global, link: &mut L, answer: &Answer) -> Served
    requires is_open { IsTrue (L.line link.old).is_open }
    requires status { IsServiceStatus answer.now.status }
    ensures { Sends (L.line link.old) (L.line link.new) (IsAnswerText answer.now) result }
{
    let before = link.starved();
    match write_answer(alloc, link, answer) {
        Ok(()) => Served::Answered(answer.status),
        Err(LinkFail::Failed) => Served::LinkFailed,
        Err(LinkFail::NoMemory) => {
            if has_risen(before, link.starved()) {
                Served::LinkNoMemory
            } else {
                send_no_memory(alloc, link)
            }
        }
    }
}

// Writes what was made.
fn send<L: Link>(alloc: Global, link: &mut L, answer: Result<Answer, NoMemory>) -> Served
    requires is_open { IsTrue (L.line link.old).is_open }
    requires status { IfOk answer (λ answer. IsServiceStatus answer.status) }
    ensures { Sends (L.line link.old) (L.line link.new) (IsTextOf answer) result }
{
    match answer {
        Ok(answer) => send_answer(alloc, link, &answer),
        Err(_) => send_no_memory(alloc, link),
    }
}

// Writes a plain text.
fn send_plain<L: Link>(alloc: Global, link: &mut L, status: u16, line: &[u8]) -> Served
    requires is_open { IsTrue (L.line link.old).is_open }
    requires status { IsServiceStatus status }
    ensures { Sends (L.line link.old) (L.line link.new) (IsAnswerText (plain status line.now)) result }
{
    match plain(alloc, status, line) {
        Ok(answer) => send_answer(alloc, link, &answer),
        Err(_) => send_no_memory(alloc, link),
    }
}

// Answers a fault, if it is to be answered.
fn refuse<L: Link>(alloc: Global, link: &mut L, fault: HttpFault) -> Served
    requires { IsTrue (L.line link.old).is_open }
    ensures { Refuses (L.line link.old) (L.line link.new) fault result }
{
    match fault {
        HttpFault::Failed => Served::LinkFailed,
        HttpFault::Ended { any: false } => Served::Ended,
        HttpFault::Ended { any: true } => send_plain(alloc, link, 400, b"lie: bad request\n"),
        HttpFault::BadHead => send_plain(alloc, link, 400, b"lie: bad request\n"),
        HttpFault::HeadTooLong => send_plain(alloc, link, 431, b"lie: head too long\n"),
        HttpFault::BodyTooLong => send_plain(alloc, link, 413, b"lie: body too long\n"),
        HttpFault::LengthMissing => send_plain(alloc, link, 400, b"lie: no length\n"),
        HttpFault::NoMemory => send_no_memory(alloc, link),
    }
}

/// Serves the open connection.
pub fn serve_one<D: Desk, K: Keeper, L: Link>(
    alloc: Global,
    desk: &D,
    keeper: &mut K,
    link: &mut L,
) -> Served
    requires { IsTrue (L.line link.old).is_open }

    // Answered has written one whole text: the answer that is due to the bytes that came, or the one for want of memory. Ended comes
    // where no byte came. The link failed where its count rose, in reading or with a part from the front of such a text written.
    // The rows are as the order leaves them, and as before where nothing was ordered or memory was wanting before.
    ensures serves { Serves (RepliesCounted (D.replies desk.now)) (kept (K.held keeper.old) (K.fault_count keeper.old))
        (kept (K.held keeper.new) (K.fault_count keeper.new)) (L.line link.old) (L.line link.new) result }

    // A fault of the keeper is answered only where its count rose.
    ensures keeper { result ≡ Served.Answered 503 → RoseByOne (K.fault_count keeper.old) (K.fault_count keeper.new) }

    // The connection stays open.
    ensures still_open { IsTrue (L.line link.new).is_open }
{
    match read_request(alloc, link) {
        Ok(ask) => {
            let answer = decide(alloc, desk, keeper, &ask);
            send(alloc, link, answer)
        }
        Err(fault) => refuse(alloc, link, fault),
    }
}
