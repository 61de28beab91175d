//! Linear systems over two to four variables as texts, for tests.
#![tactic(auto)]

mod system_texts;
mod words;

pub use system_texts::{SystemTexts, is_same, of_texts, system};
pub use words::unknown_of;
