//! The keeper of studies over a SQLite file, and tests of keepers.
#![tactic(auto)]

mod sql;
mod table;

pub use sql::SqlKeeper;

#[cfg(test)]
mod tests;
