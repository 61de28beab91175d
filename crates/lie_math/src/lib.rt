//! Polynomials, rational polynomials, vector fields, and linear systems of equations for unknown polynomials: definitions and laws.
#![tactic(auto)]

pub mod derivations;
pub mod divisors;
pub mod examples;
pub mod forms;
pub mod occurrences;
pub mod polynomials;
pub mod sums;
pub mod systems;
