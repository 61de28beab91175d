//! The outside of the program as traits: files that are read by name, sinks that take bytes, keepers of studies, and links whose
//! connections are served.
//! Fakes in memory tell what they hold, so contracts can speak of it; adapters over the system don't.
#![tactic(auto)]

mod files;
mod host;
mod host_link;
mod keeper;
mod link;
mod memory;
mod memory_link;
mod names;
mod plan;
mod rows;
mod script;
mod sink;

pub use files::{FileFail, Files};
pub use host::{HostFiles, HostSink};
pub use host_link::HostLink;
pub use keeper::{Keeper, KeeperFail, PutFail};
pub use lie_bytes::{Bytes, NoMemory, Text};
pub use link::{Link, LinkFail};
pub use memory::{MemoryFiles, MemorySink};
pub use names::{Name, is_name};
pub use plan::Plan;
pub use rows::{MAX_ROWS, Row};
pub use script::MemoryLink;
pub use sink::{Sink, SinkFail};

#[cfg(test)]
mod tests;
