// Requests over a link in memory, whole, in pieces, cut, at the limits and behind them; answers, and where requests lead.
ghost use Rattle.std.specs.Prelude.{◌<◌, IsTrue, IfOk};
ghost use Rattle.lie_outer.specs.MemoryLink.{line_of};

use super::*;
use lie_outer::{Bytes, Link, LinkFail, MemoryLink, Name, Text};
use std::alloc::Global;
use std::process::Abort;
use std::test::Fail;

// A link whose open connection has the bytes in pieces of a size.
fn link_of(
    rt: &impl Abort,
    alloc: Global,
    bytes: &[u8],
    size: usize,
    fails: Vec<u64>,
) -> Result<MemoryLink, Fail>
    requires { 0 < size }
    ensures { IfOk result (λ link. IsTrue (line_of link).is_open) }
{
    let mut pieces = Vec::new(alloc);
    for piece in bytes.chunks(size) {
        pieces.push(Bytes::of(alloc, piece)?)?;
    }
    let mut link = MemoryLink::new(vec![in alloc; pieces]?, fails);
    link.next(alloc).expect(rt, "a connection");
    Ok(link)
}

// What is read where no call fails: the length of the body, or why there is no request.
fn read(
    rt: &impl Abort,
    alloc: Global,
    bytes: &[u8],
    size: usize,
) -> Result<Result<usize, HttpFault>, Fail>
    requires { 0 < size }
{
    let mut link = link_of(rt, alloc, bytes, size, Vec::new(alloc))?;
    Ok(read_request(alloc, &mut link).map(|ask| ask.body.bytes().len()))
}

const STUDY: &[u8] = b"POST /study/a HTTP/1.1\r\nContent-Length: 4\r\n\r\nlie\n";

#[test]
fn a_request_is_read_in_any_pieces(rt: HostRuntime) -> Result<(), Fail> {
    let alloc = rt.alloc();
    for size in [1, 2, 7, 48, 1000] {
        let mut link = link_of(&rt, alloc, STUDY, size, Vec::new(alloc))?;
        let ask = read_request(alloc, &mut link).expect(&rt, "a request");
        assert_eq!(rt; ask.method.bytes(), b"POST".as_slice(), "{size}");
        assert_eq!(rt; ask.path.bytes(), b"/study/a".as_slice(), "{size}");
        assert_eq!(rt; ask.body.bytes(), b"lie\n".as_slice(), "{size}");
    }
    Ok(())
}

#[test]
fn a_cut_request_is_none(rt: HostRuntime) -> Result<(), Fail> {
    let alloc = rt.alloc();
    for end in 0..STUDY.len() {
        let want = Err(HttpFault::Ended { any: end > 0 });
        assert_eq!(rt; read(&rt, alloc, &STUDY[..end], 16)?, want, "{end}");
    }
    Ok(())
}

#[test]
fn each_fault_has_its_cause(rt: HostRuntime) -> Result<(), Fail> {
    let alloc = rt.alloc();
    for (bytes, want) in [
        (
            b"POST /a HTTP/1.1\r\n\r\n".as_slice(),
            Err(HttpFault::LengthMissing),
        ),
        (
            b"POST /a HTTP/1.1\r\nContent-Length: 65537\r\n\r\n".as_slice(),
            Err(HttpFault::BodyTooLong),
        ),
        (
            b"POST /a HTTP/1.1\r\nContent-Length: 000000001\r\n\r\nx".as_slice(),
            Err(HttpFault::BadHead),
        ),
        (
            b"POST /a HTTP/1.1\r\nContent-Length: +1\r\n\r\nx".as_slice(),
            Err(HttpFault::BadHead),
        ),
        (
            b"GET / HTTP/1.1\r\nContent-Length: 1\r\ncontent-length: 1\r\n\r\nx".as_slice(),
            Err(HttpFault::BadHead),
        ),
        (
            b"POST /a HTTP/1.1\r\ntransfer-encoding: chunked\r\n\r\n".as_slice(),
            Err(HttpFault::BadHead),
        ),
        (
            b"GET  / HTTP/1.1\r\n\r\n".as_slice(),
            Err(HttpFault::BadHead),
        ),
        (b"\r\n\r\nGET / HTTP/1.0\n\n".as_slice(), Ok(0)),
        (
            b"PUT / HTTP/1.1\r\nCONTENT-LENGTH: \t2 \r\n\r\nxyz".as_slice(),
            Ok(2),
        ),
    ] {
        assert_eq!(rt; read(&rt, alloc, bytes, 5)?, want);
    }
    Ok(())
}

// A request of a size, with so many fields of three bytes, and a last one that fills its head up where it is shorter.
fn long_head(alloc: Global, fields: usize, size: usize) -> Result<Vec<u8>, Fail> {
    let mut bytes = Vec::new(alloc);
    bytes.extend_from_slice(b"GET /study HTTP/1.1\n")?;
    for _ in 0..fields {
        bytes.extend_from_slice(b"a:\n")?;
    }
    if bytes.len() < size {
        bytes.extend_from_slice(b"b:")?;
        for _ in bytes.len()..size.saturating_sub(2) {
            bytes.push(b'x')?;
        }
        bytes.push(b'\n')?;
    }
    bytes.push(b'\n')?;
    Ok(bytes)
}

#[test]
fn a_head_has_limits(rt: HostRuntime) -> Result<(), Fail> {
    let alloc = rt.alloc();
    for (fields, size, want) in [
        (64, 0, Ok(0)),
        (65, 0, Err(HttpFault::HeadTooLong)),
        (0, 16_384, Ok(0)),
        (0, 16_385, Err(HttpFault::HeadTooLong)),
        (5000, 0, Err(HttpFault::HeadTooLong)),
    ] {
        let bytes = long_head(alloc, fields, size)?;
        assert_eq!(rt; read(&rt, alloc, &bytes, 4000)?, want, "{fields} {size}");
    }
    Ok(())
}

#[test]
fn a_body_has_a_limit(rt: HostRuntime) -> Result<(), Fail> {
    let alloc = rt.alloc();
    for (length, want) in [(65_536, Ok(65_536)), (65_537, Err(HttpFault::BodyTooLong))] {
        let mut bytes = format!(in alloc;
            "POST /a HTTP/1.1\nContent-Length: {length}\n\n"
        )?.into_bytes();
        for _ in 0..length {
            bytes.push(b'x')?;
        }
        assert_eq!(rt; read(&rt, alloc, &bytes, 4000)?, want, "{length}");
    }
    Ok(())
}

#[test]
fn requests_lead_to_the_desk(rt: HostRuntime) -> Result<(), Fail> {
    let alloc = rt.alloc();
    for (method, path, want) in [
        (b"POST".as_slice(), b"/analyse".as_slice(), "Desk(Analyse)"),
        (b"GET".as_slice(), b"/analyse".as_slice(), "NoSuchMethod"),
        (b"GET".as_slice(), b"/study".as_slice(), "Desk(List)"),
        (
            b"DELETE".as_slice(),
            b"/study/-".as_slice(),
            "Desk(Drop(Name { items: [45] }))",
        ),
        (b"PUT".as_slice(), b"/study/-".as_slice(), "NoSuchMethod"),
        (b"GET".as_slice(), b"/study/A".as_slice(), "NoSuchPath"),
        (b"GET".as_slice(), b"/study/".as_slice(), "NoSuchPath"),
        (b"GET".as_slice(), b"/study/a/b".as_slice(), "NoSuchPath"),
        (b"GET".as_slice(), b"/study/\xff".as_slice(), "NoSuchPath"),
    ] {
        let ask = Ask {
            method: Text::of(alloc, method)?.expect(&rt, "ASCII"),
            path: Bytes::of(alloc, path)?,
            body: Bytes::of(alloc, b"")?,
        };
        let to = destination_of(alloc, &ask)?;
        assert_eq!(rt; format!(in alloc; "{to:?}")?.as_str(), want);
    }
    Ok(())
}

#[test]
fn an_answer_is_written(rt: HostRuntime) -> Result<(), Fail> {
    let alloc = rt.alloc();
    let mut names = Vec::new(alloc);
    for name in [b"b".as_slice(), b"a-1".as_slice()] {
        names.push(Name::read(alloc, name)?.expect(&rt, "a name"))?;
    }
    let answer = Answer {
        status: 200,
        json: true,
        body: names_json(alloc, &names)?,
    };
    let mut link = link_of(&rt, alloc, b"", 1, vec![in alloc; 3]?)?;
    assert_eq!(rt; write_answer(alloc, &mut link, &answer), Ok(()));
    let want =
        b"HTTP/1.1 200 OK\r\nContent-Length: 21\r\nContent-Type: application/json\r\nConnection: close\r\n\r\n{\"names\":[\"b\",\"a-1\"]}";
    assert_eq!(rt; link.written(), want.as_slice());
    assert_eq!(rt; write_no_memory(alloc, &mut link), Err(LinkFail::Failed));
    Ok(())
}
