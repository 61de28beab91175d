//! Integrals of linear forms by a variable in whole numbers, with the least number that makes one whole.
#![tactic(auto)]

mod fractions;
mod integral;

pub use integral::{Integration, integral_of, least_denominator};
