// Reading the request of the open connection.
ghost use Rattle.std.specs.Prelude.{◌≡◌, ◌+◌, ◌<◌, ◌≤◌, [], length, vec_len, IsTrue, IfSome, MatchResult};
ghost use Rattle.lie_http.specs.Requests.{greatest_head, Answers};
ghost use Rattle.lie_http.specs.Reading.{Spends, ReadsMore, ReadsUpTo, Looks, ReadsHead, IsHeadOf, IsAskOf, Responds};

use crate::head::{Head, MAX_HEAD, ROOM, bytes_of, find_head};
use crate::request::{Ask, HttpFault};
use httparse::spans::{EMPTY_HEADER_SPAN, HeaderSpan};
use lie_outer::{Link, LinkFail};
use std::alloc::Global;

// One call of a link is asked for at most so many bytes.
const CHUNK: usize = 4096;

// Reads once, so that there are at most so many bytes, and says whether any came.
fn read_more<L: Link>(
    alloc: Global,
    link: &mut L,
    bytes: &mut Vec<u8>,
    most: usize,
) -> Result<bool, HttpFault>
    requires is_open { IsTrue (L.line link.old).is_open }
    requires room { vec_len bytes.old < most }
    ensures { ReadsMore (L.line link.old) (L.line link.new) bytes.old.items bytes.new.items most result }
{
    let mut chunk = [0; CHUNK];
    let room = (most - bytes.len()).min(CHUNK);
    match link.read(alloc, &mut chunk[..room]) {
        Ok(count) => {
            if count == 0 {
                return Ok(false);
            }
            if bytes.extend_from_slice(&chunk[..count]).is_err() {
                return Err(HttpFault::NoMemory);
            }
            Ok(true)
        }
        Err(LinkFail::Failed) => Err(HttpFault::Failed),
        Err(LinkFail::NoMemory) => Err(HttpFault::NoMemory),
    }
}

// Reads until there are so many bytes, and says whether there are.
fn read_up_to<L: Link>(
    alloc: Global,
    link: &mut L,
    bytes: &mut Vec<u8>,
    end: usize,
) -> Result<bool, HttpFault>
    requires is_open { IsTrue (L.line link.old).is_open }
    ensures { ReadsUpTo (L.line link.old) (L.line link.new) bytes.old.items bytes.new.items end result }
{
    while bytes.len() < end {
        if !read_more(alloc, link, bytes, end)? {
            return Ok(false);
        }
    }
    Ok(true)
}

// Looks for the head, and reads once where it isn't there yet.
fn look<L: Link>(
    alloc: Global,
    link: &mut L,
    bytes: &mut Vec<u8>,
    fields: &mut [HeaderSpan],
) -> Result<Option<Head>, HttpFault>
    requires is_open { IsTrue (L.line link.old).is_open }
    requires short { vec_len bytes.old ≤ greatest_head }
    requires room { length fields.old ≡ 8192 }
    ensures { Looks (L.line link.old) (L.line link.new) bytes.old.items bytes.new.items result }
{
    match find_head(alloc, bytes, fields)? {
        Some(found) => return Ok(Some(found)),
        None => {}
    }
    if bytes.len() >= MAX_HEAD {
        return Err(HttpFault::HeadTooLong);
    }
    if !read_more(alloc, link, bytes, MAX_HEAD)? {
        return Err(HttpFault::Ended {
            any: !bytes.is_empty(),
        });
    }
    Ok(None)
}

// Reads until the head is there.
fn read_head<L: Link>(
    alloc: Global,
    link: &mut L,
    bytes: &mut Vec<u8>,
    fields: &mut [HeaderSpan],
) -> Result<Head, HttpFault>
    requires is_open { IsTrue (L.line link.old).is_open }
    requires empty { bytes.old.items ≡ [] }
    requires room { length fields.old ≡ 8192 }
    ensures { ReadsHead (L.line link.old) (L.line link.new) bytes.new.items result }
{
    'reading: loop {
        if let Some(found) = look(alloc, link, bytes, fields)? {
            return Ok(found);
        }
    }
}

// What the head and the bytes behind it ask for.
fn ask_of(alloc: Global, bytes: &[u8], head: Head) -> Result<Ask, HttpFault>
    requires { head.len + head.body ≤ length bytes.now }
    ensures { MatchResult result (λ ask. IsAskOf ask bytes.now head) (λ fault. fault ≡ HttpFault.NoMemory) }
{
    let body = bytes_of(alloc, &bytes[head.len..head.len + head.body])?;
    Ok(Ask {
        method: head.method,
        path: head.path,
        body,
    })
}

// Reads the body behind the head.
fn read_body<L: Link>(
    alloc: Global,
    link: &mut L,
    bytes: &mut Vec<u8>,
    head: Head,
) -> Result<Ask, HttpFault>
    requires is_open { IsTrue (L.line link.old).is_open }
    requires head { IsHeadOf head bytes.old.items }
    ensures { Responds (L.line link.old) (L.line link.new) bytes.old.items result }
{
    match read_up_to(alloc, link, bytes, head.len + head.body) {
        Ok(true) => ask_of(alloc, bytes, head),
        Ok(false) => Err(HttpFault::Ended { any: true }),
        Err(fault) => Err(fault),
    }
}

/// Reads the request of the open connection. The first 16,384 bytes are to have its head, and the body is the number of bytes
/// that the head states; what follows isn't looked at.
pub fn read_request<L: Link>(alloc: Global, link: &mut L) -> Result<Ask, HttpFault>
    requires { IsTrue (L.line link.old).is_open }

    // Where the input is told, the answer is what its bytes are.
    ensures answer { IfSome (L.line link.old).unread (λ bytes. Answers bytes result) }

    // Some of the unread bytes were read, nothing was written, and a failure was counted.
    ensures spent { Spends (L.line link.old) (L.line link.new) result }
{
    let Ok(mut fields) = vec![in alloc; EMPTY_HEADER_SPAN; ROOM] else {
        return Err(HttpFault::NoMemory);
    };
    let mut bytes = Vec::new(alloc);
    match read_head(alloc, link, &mut bytes, &mut fields) {
        Ok(head) => read_body(alloc, link, &mut bytes, head),
        Err(fault) => Err(fault),
    }
}
