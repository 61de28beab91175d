//! Bytes and texts that own their memory, and the want of memory.
#![tactic(auto)]

mod lists;

pub use lists::{Bytes, NoMemory, Text};
