//! Linear systems of differential equations for unknown functions.
#![tactic(auto)]

mod content;
mod derivatives;
mod equation;
mod equations;
mod factors;
mod normalised;
mod order;
mod parts;
mod sum;
mod system;
mod validity;

pub use content::{common_monomial, content_of};
pub use equation::{LinEq, lead, push_triples, triples};
pub use equations::{insert_equation, put_equation, replace_equation};
pub use normalised::{derivative_alone, divided_coefficient, divided_coefficients, primitive};
pub use order::{compare_equations, form_triple_count};
pub use sum::of_triples;
pub use system::{LinSystem, Unknown};

#[cfg(test)]
mod system_tests;
#[cfg(test)]
mod tests;
