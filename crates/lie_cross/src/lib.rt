//! The rules that compare equations of a linear system, each tried at a place: isolate, reduce, foreign and cross.
#![tactic(auto)]

mod cross;
mod dependence;
mod foreign;
mod isolate;
mod normal;
mod parts;
mod reduce;

pub use cross::{cross_applies, try_cross, try_cross_with};
pub use foreign::{foreign_applies, try_foreign, try_foreign_with};
pub use isolate::{isolate_applies, try_isolate, try_isolate_with};
pub use reduce::{reduce_applies, reduce_applies_with, try_reduce, try_reduce_with};
