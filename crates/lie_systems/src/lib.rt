//! Linear systems as the program keeps them: triples and their order, normalised equations, valid systems, and the limits of works on
//! them. Definitions and laws.
#![tactic(auto)]

pub mod equations;
pub mod examples;
pub mod forms;
pub mod works;
