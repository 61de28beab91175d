// A link in memory: its connections are scripted, it tells what it holds, and it fails at the calls that it is told to fail at.
ghost use Rattle.std.specs.Prelude.{◌≡◌, ◌<◌, ◌≤◌, ◌++◌, [], map, take, drop, length, IfOk, IfSome};
ghost use Rattle.lie_outer.specs.MemoryLink.{line_of, new_line, bytes_of_all, IsFresh};

use crate::script::{Connection, MemoryLink};
use crate::{Bytes, Link, LinkFail, NoMemory, Plan};
use std::alloc::Global;

// A connection with the bytes of the pieces, one after the other.
fn connect(alloc: Global, pieces: &[Bytes]) -> Result<Connection, NoMemory>
    ensures { IfOk result (λ made. IsFresh made (bytes_of_all pieces.now)) }
{
    let mut input = Vec::new(alloc);
    let mut ends = Vec::new(alloc);
    for piece in pieces {
        input.extend_from_slice(piece.bytes())?;
        ends.push(input.len())?;
    }
    Ok(Connection {
        input,
        ends,
        place: 0,
        written: Vec::new(alloc),
    })
}

// The end of the piece in which the place is.
fn next_end(ends: &[usize], place: usize) -> usize {
    for end in ends {
        if *end > place {
            return *end;
        }
    }
    usize::MAX
}

// Gives the next bytes of a connection: at most those up to the end of a piece.
fn give(current: &mut Connection, into: &mut [u8]) -> usize
    ensures within { result ≤ length into.old }
    ensures bytes { drop current.old.place current.old.input.items
        ≡ take result into.new ++ drop current.new.place current.new.input.items }
    ensures end { result ≡ 0 → 0 < length into.old → drop current.old.place current.old.input.items ≡ [] }
    ensures written { current.new.written.items ≡ current.old.written.items }
{
    let left = current.input.len().saturating_sub(current.place);
    let piece = next_end(&current.ends, current.place).saturating_sub(current.place);
    let count = left.min(piece.max(1)).min(into.len());
    if count == 0 {
        return 0;
    }
    let end = current.place + count;
    into[..count].copy_from_slice(&current.input[current.place..end]);
    current.place = end;
    count
}

impl MemoryLink {
    /// The connections to come, each with the pieces in which its bytes come. The calls with the numbers in `fails` will fail; of
    /// those that can fail they count from 1.
    pub fn new(content: Vec<Vec<Bytes>>, fails: Vec<u64>) -> MemoryLink
        ensures { line_of result ≡ new_line (map (λ pieces. bytes_of_all pieces.items) content.items) }
    {
        let alloc = *fails.allocator();
        MemoryLink {
            content,
            opened: 0,
            current: None,
            closed: Vec::new(alloc),
            plan: Plan::new(fails),
            faults: 0,
            starved: 0,
            open_faults: 0,
        }
    }

    /// What was written on the open connection.
    pub fn written(&self) -> &[u8]
        ensures { IfSome (line_of self.now).written (λ bytes. result.now ≡ bytes) }
    {
        match &self.current {
            Some(current) => &current.written,
            None => &[],
        }
    }

    /// What was written on each closed connection.
    pub fn closed(&self) -> &[Bytes]
        ensures { IfSome (line_of self.now).closed (λ all. result.now ≡ all) }
    {
        &self.closed
    }
}

impl Link for MemoryLink {
    ghost line = { line_of };

    fn faults(&self) -> u64 {
        self.faults
    }

    fn starved(&self) -> u64 {
        self.starved
    }

    fn open_faults(&self) -> u64 {
        self.open_faults
    }

    fn listen(&mut self, _alloc: Global, _address: &str) -> Result<(), LinkFail> {
        if self.plan.next_fails() {
            self.open_faults = self.open_faults.saturating_add(1);
            return Err(LinkFail::Failed);
        }
        Ok(())
    }

    fn next(&mut self, alloc: Global) -> Result<(), LinkFail> {
        if self.plan.next_fails() {
            self.open_faults = self.open_faults.saturating_add(1);
            return Err(LinkFail::Failed);
        }
        if self.closed.reserve(1).is_err() {
            return Err(LinkFail::NoMemory);
        }
        if self.opened < self.content.len() {
            let Ok(current) = connect(alloc, &self.content[self.opened]) else {
                return Err(LinkFail::NoMemory);
            };
            self.opened += 1;
            self.current = Some(current);
        } else {
            let Ok(current) = connect(alloc, &[]) else {
                return Err(LinkFail::NoMemory);
            };
            self.current = Some(current);
        }
        Ok(())
    }

    fn read(&mut self, _alloc: Global, into: &mut [u8]) -> Result<usize, LinkFail> {
        if self.plan.next_fails() {
            self.faults = self.faults.saturating_add(1);
            return Err(LinkFail::Failed);
        }
        let Some(mut current) = self.current.take() else {
            unreachable!()
        };
        let count = give(&mut current, into);
        self.current = Some(current);
        Ok(count)
    }

    fn write(&mut self, _alloc: Global, bytes: &[u8]) -> Result<(), LinkFail> {
        if self.plan.next_fails() {
            self.faults = self.faults.saturating_add(1);
            return Err(LinkFail::Failed);
        }
        let Some(mut current) = self.current.take() else {
            unreachable!()
        };
        let taken = current.written.extend_from_slice(bytes).is_ok();
        self.current = Some(current);
        if taken {
            return Ok(());
        }
        self.starved = self.starved.saturating_add(1);
        Err(LinkFail::NoMemory)
    }

    fn close(&mut self) {
        let Some(current) = self.current.take() else {
            unreachable!()
        };
        self.closed.push_reserved(Bytes::from_vec(current.written));
    }
}
