//! Reading from the front of a text: numbers, coordinates, powers, terms and sums, with the first fault and its place.
#![tactic(auto)]

pub mod coordinate;
pub mod fault;
pub mod number;
pub mod power;
pub mod runs;
pub mod stop;
pub mod sum;
pub mod term;
pub mod terms;
