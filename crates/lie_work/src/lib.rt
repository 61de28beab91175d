//! The work of a command on a file: from its bytes to the text that is put.
#![tactic(auto)]

pub mod analyse;
mod causes;
mod checking;
mod command;
mod degree;
mod determine;
pub mod laws;
mod outcome;
pub mod solved_file;
mod source;
mod work;

pub use causes::put_outcome;
pub use command::FileCommand;
pub use outcome::{Failure, NoText, Outcome, Refusal};
pub use source::Source;
pub use work::text_of;
