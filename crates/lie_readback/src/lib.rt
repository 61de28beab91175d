//! Systems with names read back from the lines of their reports.
#![tactic(auto)]

pub mod drafts;
mod factors;
pub mod forms;
pub mod parts;
pub mod sums;
pub mod systems;
pub mod unread;
