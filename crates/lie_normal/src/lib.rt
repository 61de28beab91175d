//! What the rules for linear systems share: derivatives of linear forms, combinations of two of them, and normal forms.
#![tactic(auto)]

mod absolutes;
mod combining;
mod copying;
mod derivative;
mod derivatives;
mod leads;
mod multiples;
mod normal_forms;
mod reduction;
mod unknowns;

pub use absolutes::absolute_terms;
pub use combining::combine;
pub use derivative::{derive, rises_high, sum_of_derivatives};
pub use derivatives::{derived_between, derived_often};
pub use leads::divides;
pub use multiples::{Coefficient, put_multiple, sum_of_multiples};
pub use normal_forms::normal_form;
pub use unknowns::depends;

#[cfg(test)]
mod derivative_tests;
#[cfg(test)]
mod normal_form_tests;
