//! The keeper of studies in memory, which tells its rows.
#![tactic(auto)]

mod memory;
mod rows;

pub use memory::MemoryKeeper;
