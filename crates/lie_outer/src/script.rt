// What a link in memory is made of.
ghost use Rattle.std.specs.Prelude.{◌<◌, vec_len, vec_capacity};
ghost use Rattle.std.specs.Option.{ForSome};

use crate::{Bytes, Plan};

// An open connection: all bytes to be read on it, where its pieces end, how many were read, and what was written on it.
#[derive(Drop)]
pub(crate) struct Connection {
    pub input: Vec<u8>,
    pub ends: Vec<usize>,
    pub place: usize,
    pub written: Vec<u8>,
}

/// A link in memory. It tells what it holds.
#[derive(Drop)]
pub struct MemoryLink {
    pub(crate) content: Vec<Vec<Bytes>>,
    pub(crate) opened: usize,
    pub(crate) current: Option<Connection>,
    pub(crate) closed: Vec<Bytes>,
    pub(crate) plan: Plan,
    pub(crate) faults: u64,
    pub(crate) starved: u64,
    pub(crate) open_faults: u64,
    // There is room for what is written on the open connection.
    ghost room: { ForSome current (λ _. vec_len closed < vec_capacity closed) },
}
