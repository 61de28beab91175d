//! Polynomials as sorted lists of terms.
#![tactic(auto)]

mod addition;
mod derivative;
mod flat;
mod merge;
mod packed;
mod packing;
mod product;
mod sum;
mod tally;
mod words;

pub use flat::Flat;

#[cfg(test)]
mod tests;
