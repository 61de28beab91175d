//! The rules that take an equation away, or put simpler ones in its place.
#![tactic(auto)]

mod absent;
mod alone;
mod equations;
mod fresh;
mod integrate;
mod known;
mod lowest;
mod powers;
mod solved;
mod split;
mod substitute;
mod unknowns;
mod zero;

pub use absent::{absent_applies, try_absent, try_absent_with};
pub use integrate::{integrate_applies, try_integrate, try_integrate_with};
pub use lowest::{lowest_applies, try_lowest, try_lowest_with};
pub use split::{split_applies, try_split, try_split_with};
pub use substitute::{substitute_applies, try_substitute, try_substitute_with};
pub use zero::{try_zero, try_zero_with, zero_applies};
