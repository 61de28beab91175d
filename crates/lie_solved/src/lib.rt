//! The solved form of a system: each equation with its lead, a derivative, on one side.
#![tactic(auto)]

mod form;
pub mod laws;
mod lead;
mod linear;
mod rule;
mod solved;

pub use form::solve_form;
pub use solved::{LeadRule, NotKind, SolveFormFail, Solved};
