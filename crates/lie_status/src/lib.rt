//! How a call went, as the program tells it: its status, the exit code, and the line on the error stream.
#![tactic(auto)]

mod status;
mod status_line;

pub use lie_work::Source;
pub use status::{Status, code, status_of};
pub use status_line::{Line, line};
