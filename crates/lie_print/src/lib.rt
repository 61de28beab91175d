//! The texts of coordinates, monomials, terms and sums.
#![tactic(auto)]

pub mod name_texts;
pub mod printed_term;
pub mod printer;
pub mod printing;
