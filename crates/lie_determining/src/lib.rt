//! The determining equations of a solved system: of all fields that meet its invariance condition.
#![tactic(auto)]

mod conditions;
mod equations;
pub mod laws;
mod opening;
mod parts;
mod symbolic_application;
mod symbolic_reduction;
mod unknowns;

pub use opening::determining;

#[cfg(test)]
mod equations_tests;
