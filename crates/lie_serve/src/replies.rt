// The answers to what a desk replies.
ghost use Rattle.std.specs.Prelude.{◌≡◌, IfOk};
ghost use Rattle.lie_http.specs.AnswerText.{IsServiceStatus};
ghost use Rattle.lie_serve.specs.Replies.{plain, answer_of, dropped_line};

use crate::desk::Reply;
use lie_http::{Answer, names_json};
use lie_outer::{Bytes, Name, NoMemory};
use std::alloc::Global;

/// A plain text.
pub(crate) fn plain(alloc: Global, status: u16, text: &[u8]) -> Result<Answer, NoMemory>
    ensures { IfOk result (λ answer. answer ≡ plain status text.now) }
{
    Ok(Answer {
        status,
        json: false,
        body: Bytes::of(alloc, text)?,
    })
}

// The line that tells that the row of a name went.
fn dropped_line(alloc: Global, name: &Name) -> Result<Vec<u8>, NoMemory>
    ensures { IfOk result (λ line. line.items ≡ dropped_line name.now) }
{
    let mut line = Vec::new(alloc);
    line.extend_from_slice(b"dropped ")?;
    line.extend_from_slice(name.bytes())?;
    line.push(b'\n')?;
    Ok(line)
}

/// The answer to a reply.
pub(crate) fn answer_of(alloc: Global, reply: &Reply) -> Result<Answer, NoMemory>
    ensures value { IfOk result (λ answer. answer ≡ answer_of reply.now) }
    ensures status { IfOk result (λ answer. IsServiceStatus answer.status) }
{
    match reply {
        Reply::Analysis(report) => plain(alloc, 200, report),
        Reply::Report(report) => plain(alloc, 200, report.bytes()),
        Reply::NewReport(report) => plain(alloc, 201, report.bytes()),
        Reply::Names(names) => Ok(Answer {
            status: 200,
            json: true,
            body: names_json(alloc, names)?,
        }),
        Reply::Dropped(name) => plain(alloc, 200, &dropped_line(alloc, name)?),
        Reply::Missing => plain(alloc, 404, b"lie: missing\n"),
        Reply::Taken => plain(alloc, 409, b"lie: taken\n"),
        Reply::Refused(line) => plain(alloc, 422, line.bytes()),
        Reply::Full => plain(alloc, 507, b"lie: full\n"),
        Reply::KeeperFault => plain(alloc, 503, b"lie: keeper fault\n"),
    }
}
