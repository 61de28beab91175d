// A link over the system's sockets: the edge at which nothing is proved of what peers send.
ghost use Rattle.std.specs.Prelude.{◌≡◌, ◌≤◌, false, is_some, length, IfOk};
ghost use Rattle.lie_outer.specs.HostLink.{untold};

use crate::host::write_whole;
use crate::{Link, LinkFail, NoMemory};
use std::alloc::Global;
use std::io;
use std::io::{Read, Write};
use std::net::{Net, OpenListener, OpenStream, Shutdown, TcpListener};
use std::time::Duration;

// A peer that is silent for longer in a read or a write is a fault of its connection.
const PATIENCE_SECONDS: u64 = 30;

// Once the answer is written, no more is taken of what a peer still sends, and no longer silence is waited for.
const MAX_REST: u64 = 65_536;

const REST_SECONDS: u64 = 2;

// A wait of so many seconds.
fn seconds(count: u64) -> Option<Duration> {
    Some(Duration::from_secs(count))
}

// The next bytes of a peer that is not silent for too long.
fn read_patiently<S: Read + OpenStream>(stream: &mut S, into: &mut [u8]) -> io::Result<usize>
    ensures { IfOk result (λ count. count ≤ length into.new) }
{
    stream.set_read_timeout(seconds(PATIENCE_SECONDS))?;
    stream.read(into)
}

// Says whether a peer took all bytes, and was never silent for too long.
fn write_patiently<S: Write + OpenStream>(stream: &mut S, bytes: &[u8]) -> bool {
    stream.set_write_timeout(seconds(PATIENCE_SECONDS)).is_ok() && write_whole(stream, bytes)
}

// Ends the side that writes, and takes what the peer still sends, within bounds: the system drops what was written if a stream is let go
// with bytes unread.
fn finish<S: Read + OpenStream + Drop>(stream: S) -> io::Result<()> {
    stream.shutdown(Shutdown::Write)?;
    stream.set_read_timeout(seconds(REST_SECONDS))?;
    io::copy(&mut stream.take(MAX_REST), &mut io::sink())?;
    Ok(())
}

/// Connections over TCP. What is sent on them isn't told: only the causes of the answers are. A peer that is silent for thirty seconds in
/// a read or a write is a fault of its connection. `close` takes a bounded rest of what the peer still sends.
#[derive(Drop)]
pub struct HostLink<R: Net> {
    rt: R,
    listener: Option<R::Listener>,
    stream: Option<R::Stream>,
    faults: u64,
    open_faults: u64,
}

impl<R: Net + Clone> HostLink<R> {
    /// A link that isn't listening yet. `NoMemory` where there is none to keep the runtime.
    pub fn new(rt: &R, _alloc: Global) -> Result<HostLink<R>, NoMemory>
        ensures { IfOk result (λ made. (is_some made.stream ≡ false) × (made.faults ≡ 0) × (made.open_faults ≡ 0)) }
    {
        Ok(HostLink {
            rt: rt.clone()?,
            listener: None,
            stream: None,
            faults: 0,
            open_faults: 0,
        })
    }
}

impl<R: Net> Link for HostLink<R> {
    ghost line = { λ l. untold (is_some l.stream) l.faults l.open_faults };

    fn faults(&self) -> u64 {
        self.faults
    }

    fn starved(&self) -> u64 {
        0
    }

    fn open_faults(&self) -> u64 {
        self.open_faults
    }

    fn listen(&mut self, _alloc: Global, address: &str) -> Result<(), LinkFail> {
        match TcpListener::bind(&self.rt, address) {
            Ok(listener) => {
                self.listener = Some(listener);
                Ok(())
            }
            Err(_) => {
                self.open_faults = self.open_faults.saturating_add(1);
                Err(LinkFail::Failed)
            }
        }
    }

    fn next(&mut self, _alloc: Global) -> Result<(), LinkFail> {
        if let Some(listener) = &self.listener {
            if let Ok((stream, _)) = listener.accept() {
                self.stream = Some(stream);
                return Ok(());
            }
        }
        self.open_faults = self.open_faults.saturating_add(1);
        Err(LinkFail::Failed)
    }

    fn read(&mut self, _alloc: Global, into: &mut [u8]) -> Result<usize, LinkFail> {
        let Some(stream) = &mut self.stream else {
            unreachable!()
        };
        if let Ok(count) = read_patiently(stream, into) {
            return Ok(count);
        }
        self.faults = self.faults.saturating_add(1);
        Err(LinkFail::Failed)
    }

    fn write(&mut self, _alloc: Global, bytes: &[u8]) -> Result<(), LinkFail> {
        let Some(stream) = &mut self.stream else {
            unreachable!()
        };
        if write_patiently(stream, bytes) {
            return Ok(());
        }
        self.faults = self.faults.saturating_add(1);
        Err(LinkFail::Failed)
    }

    fn close(&mut self) {
        if let Some(stream) = self.stream.take() {
            let _ = finish(stream);
        }
    }
}
