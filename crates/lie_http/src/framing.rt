// How long the body of a request is, as the fields of its head say.
ghost use Rattle.std.specs.Prelude.{◌≡◌, ◌≤◌, length, map, All, nat_lt, IfOk};
ghost use Rattle.std.specs.Str.{str_eq_ignore_ascii_case};
ghost use Rattle.httparse.specs.Spans.{header_bytes, IsHeaderWithin};
ghost use Rattle.lie_http.specs.Requests.{greatest_body, greatest_field_count, length_of, framing_of, demand, demand_of};
ghost use Rattle.lie_http.specs.Framing.{with_field};

use crate::methods::is_method;
use crate::request::HttpFault;
use http::Method;
use httparse::spans::HeaderSpan;

/// What the fields say of the length of the body.
#[derive(Clone, Copy)]
pub(crate) enum Framing {
    /// No field states it.
    Unstated,
    /// So many bytes.
    Stated(usize),
    /// Nothing that can be.
    Bad,
}

// The longest number of digits of a length.
const MAX_LENGTH_DIGITS: usize = 8;

/// A head has no more fields than this.
const MAX_FIELDS: usize = 64;

/// A body has no more bytes than this.
const MAX_BODY: usize = 65_536;

// The length that 1 to 8 digits give.
fn length_of(value: &[u8]) -> Framing
    ensures { result ≡ length_of value.now }
{
    if value.is_empty() || value.len() > MAX_LENGTH_DIGITS {
        return Framing::Bad;
    }
    let mut length: usize = 0;
    for digit in value {
        if !digit.is_ascii_digit() {
            return Framing::Bad;
        }
        length = length * 10 + (*digit - b'0') as usize;
    }
    Framing::Stated(length)
}

// Says whether a name is the other, without regard to case.
fn is_named(name: &[u8], other: &[u8]) -> bool
    ensures { result ≡ str_eq_ignore_ascii_case name.now other.now }
{
    name.eq_ignore_ascii_case(other)
}

// What is said with one field more.
fn with_field(framing: Framing, name: &[u8], value: &[u8]) -> Framing
    ensures { result ≡ with_field framing (name.now, value.now) }
{
    if is_named(name, b"transfer-encoding") {
        return Framing::Bad;
    }
    if !is_named(name, b"content-length") {
        return framing;
    }
    match framing {
        Framing::Unstated => length_of(value),
        _ => Framing::Bad,
    }
}

// What the fields say, each by its place in the bytes.
fn framing_of(bytes: &[u8], fields: &[HeaderSpan]) -> Framing
    requires { All (IsHeaderWithin (length bytes.now)) fields.now }
    ensures { result ≡ framing_of (map (header_bytes bytes.now) fields.now) }
{
    let mut framing = Framing::Unstated;
    for field in fields {
        framing = with_field(framing, field.name.of(bytes), field.value.of(bytes));
    }
    framing
}

// The length of the body that a head asks for, or why it is refused.
fn demand(framing: Framing, fields: usize, is_post: bool) -> Result<usize, HttpFault>
    ensures value { result ≡ demand framing (nat_lt greatest_field_count fields) is_post }
    ensures small { IfOk result (λ n. n ≤ greatest_body) }
{
    match framing {
        Framing::Bad => Err(HttpFault::BadHead),
        _ if fields > MAX_FIELDS => Err(HttpFault::HeadTooLong),
        Framing::Unstated if is_post => Err(HttpFault::LengthMissing),
        Framing::Unstated => Ok(0),
        Framing::Stated(length) if length > MAX_BODY => Err(HttpFault::BodyTooLong),
        Framing::Stated(length) => Ok(length),
    }
}

/// The length of the body that a method and the fields ask for, or why they are refused.
pub(crate) fn demand_of(
    bytes: &[u8],
    method: &[u8],
    fields: &[HeaderSpan],
) -> Result<usize, HttpFault>
    requires { All (IsHeaderWithin (length bytes.now)) fields.now }
    ensures value { result ≡ demand_of method.now (map (header_bytes bytes.now) fields.now) }
    ensures small { IfOk result (λ n. n ≤ greatest_body) }
{
    demand(
        framing_of(bytes, fields),
        fields.len(),
        is_method(method, &Method::POST),
    )
}
