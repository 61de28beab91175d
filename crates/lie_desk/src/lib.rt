//! The desk: studies of files that are kept by name, over any keeper.
#![tactic(auto)]

mod answers;
mod desk;
pub mod laws;
mod lines;
mod study;

pub use answers::{DeskFail, Study};
pub use desk::{drop_study, list_names, show_report};
pub use lines::{dropped_text, names_text};
pub use study::study_file;
