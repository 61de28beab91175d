//! The algebra of vector fields: the bracket of two fields, and the table of the brackets of a basis. The laws of them stand in `laws`.
#![tactic(auto)]

mod brackets;
mod coordinates;
mod derivations;
mod field_terms;
mod generators;
pub mod laws;
mod tables;

pub use brackets::bracket;
pub use tables::table;

#[cfg(test)]
mod tests;
