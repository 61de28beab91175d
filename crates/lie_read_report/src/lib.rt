//! Reports from their texts.
#![tactic(auto)]

mod combinations;
mod drafts;
mod fields;
mod laws;
mod places;
mod reports;
mod tables;

pub use laws::texts_have_one_report;
pub use reports::read_report;

#[cfg(test)]
mod tests;
