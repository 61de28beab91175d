//! Whether a vector field meets the invariance condition of a solved system.
#![tactic(auto)]

mod checking;
mod coefficients;
pub mod laws;
mod remainders;
mod verdict;

pub use checking::check;
pub use verdict::Verdict;
