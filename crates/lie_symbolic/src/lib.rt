//! Prolongation of the field whose components are unknown functions.
#![tactic(auto)]

mod symbolic;
mod symbolic_coefficient;

pub use symbolic::{coefficients_are_within_limits, prolong_sym};

#[cfg(test)]
mod tests;
