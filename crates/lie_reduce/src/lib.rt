//! A prolonged field applied to an equation in solved form, and reduction by the rules of a solved system.
#![tactic(auto)]

mod application;
mod exponents;
mod occurrences;
mod order;
mod powers;
mod reduction;
mod sizes;

pub use application::{applied_field, derivative_of_sides};
pub use exponents::greatest_exponents;
pub use occurrences::occurring_numbers;
pub use order::greatest_order;
pub use reduction::{reduced, reduced_all};
pub use sizes::absolute_rules;
