// What a connection asks for, and why a request is refused.
use lie_outer::{Bytes, Text};

/// A request: its method, its target byte for byte, and its body.
#[derive(Debug, Drop)]
pub struct Ask {
    /// The method, as it stands in the head.
    pub method: Text,
    /// The target, byte for byte.
    pub path: Bytes,
    /// The body, of as many bytes as the head states.
    pub body: Bytes,
}

/// Why there is no request.
#[derive(Clone, Copy, Debug, PartialEq, Eq)]
pub enum HttpFault {
    /// The bytes begin no request head, or the head states no length that can be.
    BadHead,
    /// The head has more than 16,384 bytes, or more than 64 fields.
    HeadTooLong,
    /// The body is to have more than 65,536 bytes.
    BodyTooLong,
    /// A POST states no length.
    LengthMissing,
    /// The input ended, and `any` says whether a byte was read before.
    Ended { any: bool },
    /// Reading failed, and was counted.
    Failed,
    /// There was no memory.
    NoMemory,
}
