//! Field texts: their grammar, read with the first fault and its place.
#![tactic(auto)]

mod field;
mod field_factors;
mod field_parts;
mod field_sum;
mod field_term;
mod field_terms;
mod fraction;
pub mod laws;

pub use field::read_field;

#[cfg(test)]
mod field_limit_tests;
#[cfg(test)]
mod field_tests;
