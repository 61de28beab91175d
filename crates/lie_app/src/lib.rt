//! The top call: from the words of a command line over files to a report.
#![tactic(auto)]

pub mod laws;
mod on_desk;
mod on_file;
mod on_link;
mod top;
mod words;

pub use lie_status::{Source, Status, code, line};
pub use top::run;
