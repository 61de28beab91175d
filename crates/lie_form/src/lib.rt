//! Linear forms in derivatives of unknown functions, with polynomials in jets as coefficients, and their total derivatives.
#![tactic(auto)]

mod form;
mod form_totals;

pub use form::SymForm;
pub use form_totals::{put_derived, sum_of_totals, total_sym};

#[cfg(test)]
mod tests;
