//! Equation files: their grammar, read with the first fault and its place.
#![tactic(auto)]

mod equations;
mod file;
pub mod laws;
mod lead;
mod lines;
mod names;
mod reading;

pub use reading::read_system;

#[cfg(test)]
mod equation_tests;
#[cfg(test)]
mod limit_tests;
#[cfg(test)]
mod tests;
