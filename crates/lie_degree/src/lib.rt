//! The symmetries of a solved system up to a degree: the reduced basis of all fields whose components have no term above it.
#![tactic(auto)]

mod bases;
mod columns;
mod conditions;
mod derivatives;
mod equations;
pub mod laws;
mod monomials;

pub use bases::{DegreeStop, MAX_DEGREE, degree_basis, symmetries_to_degree};
