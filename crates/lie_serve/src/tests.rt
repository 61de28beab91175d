// Requests over a link in memory, put to a desk that puts no rows: each reply, each refusal, and a link that fails in mid-stream.
ghost use Rattle.std.specs.Prelude.{⊤, ◌<◌};

use super::*;
use lie_http::Order;
use lie_keep::MemoryKeeper;
use lie_outer::{Bytes, Keeper, KeeperFail, Link, MemoryLink, NoMemory, Text};
use std::alloc::Global;
use std::process::Abort;
use std::test::Fail;

// A desk that keeps nothing. The body of an order says what it replies, else the body comes back as a report.
#[derive(Drop)]
struct Echo;

impl Desk for Echo {
    ghost replies = { λ desk old order body reply new. ⊤ };

    fn obey<K: Keeper>(
        &self,
        alloc: Global,
        keeper: &mut K,
        order: &Order,
        body: &[u8],
    ) -> Result<Reply, NoMemory> {
        match order {
            Order::Analyse => match keeper.list(alloc, 0, 1) {
                Err(KeeperFail::Failed) => Ok(Reply::KeeperFault),
                _ => Ok(Reply::Full),
            },
            Order::List => Ok(Reply::Names(Vec::new(alloc))),
            Order::Study(_) if body == b"taken".as_slice() => Ok(Reply::Taken),
            Order::Study(_) if body == b"full".as_slice() => Ok(Reply::Full),
            Order::Study(_) if body == b"refused".as_slice() => {
                Ok(Reply::Refused(Bytes::from_vec(Vec::new(alloc))))
            }
            Order::Study(_) => match Text::of(alloc, body) {
                Ok(Some(text)) => Ok(Reply::NewReport(text)),
                _ => Err(NoMemory),
            },
            Order::Show(_) => Ok(Reply::Missing),
            Order::Drop(_) => Ok(Reply::Report(Text::empty(alloc))),
        }
    }
}

// Serves one connection with the bytes in pieces of a size, where these calls of the link fail, and gives what was answered and written.
fn serve(
    rt: &impl Abort,
    alloc: Global,
    bytes: &[u8],
    size: usize,
    fails: Vec<u64>,
) -> Result<(Served, Bytes), Fail>
    requires { 0 < size }
{
    let mut pieces = Vec::new(alloc);
    for piece in bytes.chunks(size) {
        pieces.push(Bytes::of(alloc, piece)?)?;
    }
    let mut link = MemoryLink::new(vec![in alloc; pieces]?, fails);
    link.next(alloc).expect(rt, "a connection");
    let mut keeper = MemoryKeeper::new(Vec::new(alloc), vec![in alloc; 1]?);
    let served = serve_one(alloc, &Echo, &mut keeper, &mut link);
    let written = Bytes::of(alloc, link.written())?;
    link.close();
    Ok((served, written))
}

#[test]
fn each_answer_has_its_status(rt: HostRuntime) -> Result<(), Fail> {
    let alloc = rt.alloc();
    for (bytes, status) in [
        (
            b"POST /study/a HTTP/1.1\nContent-Length: 3\n\nnew".as_slice(),
            201,
        ),
        (
            b"POST /study/a HTTP/1.1\nContent-Length: 5\n\ntaken".as_slice(),
            409,
        ),
        (
            b"POST /study/a HTTP/1.1\nContent-Length: 7\n\nrefused".as_slice(),
            422,
        ),
        (
            b"POST /study/a HTTP/1.1\nContent-Length: 4\n\nfull".as_slice(),
            507,
        ),
        (
            b"POST /study/a HTTP/1.1\nContent-Length: 1\n\n\xff".as_slice(),
            500,
        ),
        (
            b"POST /analyse HTTP/1.1\nContent-Length: 0\n\n".as_slice(),
            503,
        ),
        (b"GET /study HTTP/1.1\n\n".as_slice(), 200),
        (b"GET /study/a HTTP/1.1\n\n".as_slice(), 404),
        (b"DELETE /study/a HTTP/1.1\n\n".as_slice(), 200),
        (b"GET /nothing HTTP/1.1\n\n".as_slice(), 404),
        (b"PUT /study/a HTTP/1.1\n\n".as_slice(), 405),
        (b"POST /study/a HTTP/1.1\n\n".as_slice(), 400),
        (
            b"POST /study/a HTTP/1.1\nContent-Length: 2\n\nx".as_slice(),
            400,
        ),
        (
            b"POST /study/a HTTP/1.1\nContent-Length: 99999\n\nx".as_slice(),
            413,
        ),
    ] {
        let (served, _) = serve(&rt, alloc, bytes, 7, Vec::new(alloc))?;
        assert_eq!(rt; served, Served::Answered(status), "{status}");
    }
    Ok(())
}

#[test]
fn an_answer_is_written_unless_the_link_fails(rt: HostRuntime) -> Result<(), Fail> {
    let alloc = rt.alloc();
    let want =
        b"HTTP/1.1 200 OK\r\nContent-Length: 12\r\nContent-Type: application/json\r\nConnection: close\r\n\r\n{\"names\":[]}";
    // The first call opens the connection; four reads and a write follow.
    for call in 2..8 {
        let (served, written) = serve(
            &rt,
            alloc,
            b"GET /study HTTP/1.1\n\n",
            7,
            vec![in alloc; call]?,
        )?;
        if call < 6 {
            assert_eq!(rt; served, Served::LinkFailed, "{call}");
            assert_eq!(rt; written.bytes().len(), 0, "{call}");
        } else {
            assert_eq!(rt; served, Served::Answered(200), "{call}");
            assert_eq!(rt; written.bytes(), want.as_slice(), "{call}");
        }
    }
    let (served, _) = serve(&rt, alloc, b"", 7, Vec::new(alloc))?;
    assert_eq!(rt; served, Served::Ended);
    Ok(())
}

#[test]
fn a_cut_request_is_bad(rt: HostRuntime) -> Result<(), Fail> {
    let alloc = rt.alloc();
    let request = b"POST /study/a HTTP/1.1\r\nContent-Length: 3\r\n\r\nnew";
    for end in 1..request.len() {
        let (served, _) = serve(&rt, alloc, &request[..end], 16, Vec::new(alloc))?;
        assert_eq!(rt; served, Served::Answered(400), "{end}");
    }
    Ok(())
}

// A request with so many fields of three bytes, a last one of so many bytes more, and a body of a length.
fn long_request(
    alloc: Global,
    fields: usize,
    filling: usize,
    length: usize,
) -> Result<Vec<u8>, Fail> {
    let mut bytes = format!(in alloc;
        "POST /study/a HTTP/1.1\nContent-Length: {length}\n"
    )?.into_bytes();
    for _ in 0..fields {
        bytes.extend_from_slice(b"a:\n")?;
    }
    bytes.extend_from_slice(b"b:")?;
    for _ in 0..filling {
        bytes.push(b'x')?;
    }
    bytes.extend_from_slice(b"\n\n")?;
    for _ in 0..length {
        bytes.push(b'y')?;
    }
    Ok(bytes)
}

#[test]
fn a_request_has_limits(rt: HostRuntime) -> Result<(), Fail> {
    let alloc = rt.alloc();
    // The head without fields and filling has 45 bytes.
    for (fields, filling, length, status) in [
        (62, 0, 3, 201),
        (63, 0, 3, 431),
        (0, 16_339, 3, 201),
        (0, 16_340, 3, 431),
        (0, 0, 65_536, 201),
        (0, 0, 65_537, 413),
    ] {
        let bytes = long_request(alloc, fields, filling, length)?;
        let (served, _) = serve(&rt, alloc, &bytes, 4000, Vec::new(alloc))?;
        assert_eq!(rt;
            served,
            Served::Answered(status),
            "{fields} {filling} {length}"
        );
    }
    Ok(())
}
