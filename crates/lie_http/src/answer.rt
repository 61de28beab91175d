// Writing an answer on the open connection.
ghost use Rattle.std.specs.Prelude.{◌≡◌, IsTrue, IfOk, string_bytes};
ghost use Rattle.lie_outer.specs.Link.{Writes};
ghost use Rattle.lie_http.specs.AnswerText.{IsServiceStatus, status_line, length_line, type_line, answer_text, no_memory_text};
ghost use Rattle.lie_http.specs.AnswerText.{WritesAnswer};

use http::StatusCode;
use lie_outer::{Bytes, Link, LinkFail};
use std::alloc::{AllocError, Global};

/// An answer: its status, whether its body is JSON or plain text, and its body.
#[derive(Debug, Drop)]
pub struct Answer {
    /// One of the statuses of the service.
    pub status: u16,
    /// Whether the body is JSON; else it is plain text.
    pub json: bool,
    /// The body.
    pub body: Bytes,
}

// The first line.
#[tactic(auto, unfolding(crate::specs::AnswerText::status_line))]
fn status_line(alloc: Global, status: u16) -> Result<String, AllocError>
    requires { IsServiceStatus status }
    ensures { IfOk result (λ line. string_bytes line ≡ status_line status) }
{
    let Ok(status) = StatusCode::from_u16(status) else {
        unreachable!()
    };
    format!(in alloc; "HTTP/1.1 {status}\r\n")
}

// The line of the length.
#[tactic(auto, unfolding(crate::specs::AnswerText::length_line))]
fn length_line(alloc: Global, length: usize) -> Result<String, AllocError>
    ensures { IfOk result (λ line. string_bytes line ≡ length_line length) }
{
    format!(in alloc; "Content-Length: {length}\r\n")
}

// The line of the type.
fn type_line(json: bool) -> &'static str
    ensures { result.now ≡ type_line json }
{
    if json {
        "Content-Type: application/json\r\n"
    } else {
        "Content-Type: text/plain\r\n"
    }
}

const LAST_LINES: &str = "Connection: close\r\n\r\n";

// All bytes of an answer.
fn answer_text(alloc: Global, answer: &Answer) -> Result<Vec<u8>, AllocError>
    requires { IsServiceStatus answer.now.status }
    ensures { IfOk result (λ text. text.items ≡ answer_text answer.now) }
{
    let body = answer.body.bytes();
    let mut text = status_line(alloc, answer.status)?.into_bytes();
    text.extend_from_slice(length_line(alloc, body.len())?.as_str().as_bytes())?;
    text.extend_from_slice(type_line(answer.json).as_bytes())?;
    text.extend_from_slice(LAST_LINES.as_bytes())?;
    text.extend_from_slice(body)?;
    Ok(text)
}

/// Writes the answer. Its memory is taken before the first byte is written.
pub fn write_answer<L: Link>(alloc: Global, link: &mut L, answer: &Answer) -> Result<(), LinkFail>
    requires is_open { IsTrue (L.line link.old).is_open }
    requires status { IsServiceStatus answer.now.status }
    ensures { WritesAnswer (L.line link.old) (L.line link.new) (answer_text answer.now) result }
{
    match answer_text(alloc, answer) {
        Ok(text) => link.write(alloc, &text),
        Err(_) => Err(LinkFail::NoMemory),
    }
}

const NO_MEMORY: &str =
    "HTTP/1.1 500 Internal Server Error\r\nContent-Length: 15\r\nContent-Type: text/plain\r\nConnection: close\r\n\r\nlie: no memory\n";

/// Writes the answer for want of memory, which takes none but what the link takes.
pub fn write_no_memory<L: Link>(alloc: Global, link: &mut L) -> Result<(), LinkFail>
    requires { IsTrue (L.line link.old).is_open }
    ensures { Writes (L.line link.old) (L.line link.new) no_memory_text result }
{
    link.write(alloc, NO_MEMORY.as_bytes())
}
