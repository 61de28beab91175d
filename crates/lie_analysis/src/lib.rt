//! The analysis of a solved system: the run from its determining equations within a budget of steps, and, where finitely many symmetries
//! are left, their basis and its commutators.
#![tactic(auto)]

mod algebra;
mod analysis;
pub mod laws;

pub use analysis::{Analysis, MAX_BUDGET, Unfinished, analyse};
