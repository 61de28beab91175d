//! Linear algebra over whole numbers: spans over the rational numbers, reduced bases of rows and of vector fields, and kernels.
//! Definitions and laws.
#![tactic(auto)]

pub mod conditions;
pub mod constants;
pub mod examples;
pub mod fields;
pub mod rows;
