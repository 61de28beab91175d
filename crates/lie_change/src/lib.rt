//! Systems changed in place, as the steps of the rules change them: with one equation more, with others in place of one, and
//! with an unknown eliminated. After an error a system is as it was.
#![tactic(auto)]

mod adding;
mod counting;
mod dividing;
mod eliminating;
mod leaving;
mod mentioning;
mod putting;
mod replacing;

pub use adding::{add_form, exchange_forms};
pub use eliminating::{eliminate, eliminate_divided};
pub use mentioning::mentions;

#[cfg(test)]
mod changing_tests;
