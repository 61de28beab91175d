//! Tables of the places of equations: by the unknowns that occur in them, and by their leads.
#![tactic(auto)]

mod lead;
mod places;
mod rows;
mod tables;

pub use tables::Tables;

#[cfg(test)]
mod tests;
