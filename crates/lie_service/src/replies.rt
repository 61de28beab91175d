// The reply that tells what a call of the desk answered.
ghost use Rattle.std.specs.Prelude.{◌≡◌, IfOk};
ghost use Rattle.lie_service.specs.Replies.{status_reply, study_reply, TellsFail};

use lie_desk::{DeskFail, Study};
use lie_outer::{Bytes, NoMemory};
use lie_serve::Reply;
use lie_status::{Status, line, status_of};
use lie_work::Outcome;
use std::alloc::Global;

// The reply that tells a status.
fn status_reply(alloc: Global, status: &Status) -> Result<Reply, NoMemory>
    ensures { IfOk result (λ reply. reply ≡ status_reply status.now) }
{
    match status {
        Status::Missing => Ok(Reply::Missing),
        Status::Taken { .. } => Ok(Reply::Taken),
        Status::Full => Ok(Reply::Full),
        _ => {
            let line = line(status);
            Ok(Reply::Refused(Bytes::of(alloc, line.as_str().as_bytes())?))
        }
    }
}

/// The reply that tells why the desk gives nothing.
pub(crate) fn not_given(alloc: Global, fail: DeskFail) -> Result<Reply, NoMemory>
    ensures { TellsFail fail result }
{
    match fail {
        DeskFail::Refused(refusal) => status_reply(alloc, &status_of(Outcome::Refused(refusal))),
        DeskFail::KeeperFault => Ok(Reply::KeeperFault),
        DeskFail::NoMemory => Err(NoMemory),
    }
}

/// The reply that tells a study.
pub(crate) fn study_reply(study: Study) -> Reply
    ensures { result ≡ study_reply study }
{
    if study.is_new {
        Reply::NewReport(study.report)
    } else {
        Reply::Report(study.report)
    }
}
