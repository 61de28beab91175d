// The head at the front of the bytes that were read so far.
ghost use Rattle.std.specs.Prelude.{◌≡◌, ◌<◌, ◌≤◌, length, All, MatchResult};
ghost use Rattle.httparse.specs.Spans.{IsRequestWithin, IsRequestOf};
ghost use Rattle.lie_http.specs.Requests.{greatest_head};
ghost use Rattle.lie_http.specs.Reading.{Tells};
ghost use Rattle.lie_http.specs.declared.request.HttpFault.{HttpFault as AFault};

use crate::framing::demand_of;
use crate::request::HttpFault;
use httparse::Status;
use httparse::spans::{HeaderSpan, RequestSpans, parse_request};
use lie_outer::{Bytes, Text};
use std::alloc::Global;

/// A head has no more bytes than this.
pub(crate) const MAX_HEAD: usize = 16_384;

/// A head of so many bytes has fewer fields than this.
pub(crate) const ROOM: usize = 8192;

/// What a head asks for, where it ends, and how long its body is to be.
#[derive(Drop)]
pub(crate) struct Head {
    pub method: Text,
    pub path: Bytes,
    pub len: usize,
    pub body: usize,
}

// A copy of the text of a method.
fn text_of(alloc: Global, bytes: &[u8]) -> Result<Text, HttpFault>
    requires { All (λ b. b < 128) bytes.now }
    ensures { MatchResult result (λ text. text ≡ bytes.now) (λ fault. fault ≡ HttpFault.NoMemory) }
{
    match Text::of(alloc, bytes) {
        Ok(Some(text)) => Ok(text),
        Ok(None) => unreachable!(),
        Err(_) => Err(HttpFault::NoMemory),
    }
}

/// A copy of the bytes.
pub(crate) fn bytes_of(alloc: Global, bytes: &[u8]) -> Result<Bytes, HttpFault>
    ensures { MatchResult result (λ made. made ≡ bytes.now) (λ fault. fault ≡ HttpFault.NoMemory) }
{
    match Bytes::of(alloc, bytes) {
        Ok(made) => Ok(made),
        Err(_) => Err(HttpFault::NoMemory),
    }
}

// What a whole head asks for.
fn whole_head(
    alloc: Global,
    bytes: &[u8],
    fields: &[HeaderSpan],
    found: &RequestSpans,
) -> Result<Option<Head>, HttpFault>
    requires short { length bytes.now ≤ greatest_head }
    requires within { IsRequestWithin bytes.now fields.now found.now }
    requires head { IsRequestOf bytes.now fields.now found.now }
    ensures { Tells bytes.now result }
{
    let method = found.method.of(bytes);
    let body = demand_of(bytes, method, &fields[..found.headers])?;
    let method = text_of(alloc, method)?;
    let path = bytes_of(alloc, found.path.of(bytes))?;
    Ok(Some(Head {
        method,
        path,
        len: found.len,
        body,
    }))
}

/// The head at the front of the bytes: whole, not yet there, or none that can be.
pub(crate) fn find_head(
    alloc: Global,
    bytes: &[u8],
    fields: &mut [HeaderSpan],
) -> Result<Option<Head>, HttpFault>
    requires short { length bytes.now ≤ greatest_head }
    requires room { length fields.old ≡ 8192 }
    ensures { Tells bytes.now result }
{
    match parse_request(bytes, fields) {
        Ok(Status::Complete(found)) => whole_head(alloc, bytes, fields, &found),
        Ok(Status::Partial) => Ok(None),
        Err(_) => Err(HttpFault::BadHead),
    }
}
