//! The texts that are put: reports, and the line of a check.
#![tactic(auto)]

mod basis_lines;
mod check_line;
mod reports;
mod system_lines;
mod terms;
mod write;

pub use check_line::{no_line, yes_line};
pub use reports::{Found, Report, Table};
pub use write::{determining_report, write_report};

#[cfg(test)]
mod tests;
