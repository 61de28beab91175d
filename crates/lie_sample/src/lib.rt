//! A growing family of systems, and the numbers of the reports of their symmetries: an input as large as one wants, made from a number.
#![tactic(auto)]

mod family;
pub mod laws;
mod members;
mod numbers;

pub use family::{MAX_MEMBER, MIN_MEMBER};
pub use members::sample;

#[cfg(test)]
mod tests;
