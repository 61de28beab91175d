//! What a step of the rules leaves: lists of equations that are cleaned, and equations and forms in which an unknown is replaced.
#![tactic(auto)]

mod cleaning;
mod iterated;
mod lasting;
mod replacing;

pub use cleaning::{put_cleaned, take_back};
pub use replacing::{replace, replace_in_all};

#[cfg(test)]
mod cleaning_tests;
#[cfg(test)]
mod replacing_tests;
#[cfg(test)]
mod test_forms;
