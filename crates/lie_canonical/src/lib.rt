//! The canonical texts of systems.
#![tactic(auto)]

mod canonical_text;
pub mod laws;
mod right_side;

pub use canonical_text::canonical;

#[cfg(test)]
mod canonical_tests;
