//! Finite systems: the reduced basis of the fields that they give, and the system made of it.
#![tactic(auto)]

mod closed_form;
mod column;
mod columns;
mod fields;
mod finite_systems;
pub mod laws;
mod rows;
mod system_basis;
mod unknowns;

pub use closed_form::close_form;
pub use column::{Column, degree_of};
pub use columns::insert_column;
pub use fields::fields_of;
pub use finite_systems::finite;
pub use rows::number_at;
pub use system_basis::basis;
pub use unknowns::count_components;

#[cfg(test)]
mod tests;
