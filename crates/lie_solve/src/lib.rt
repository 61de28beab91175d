//! The run of a linear system by the ten rules: its next step, and all steps within a budget.
#![tactic(auto)]

mod attempts;
mod indexed;
mod rules;
mod runs;
mod searching;

pub use indexed::Indexed;
pub use rules::{Place, RuleName, try_rule};
pub use runs::{Stop, outcomes_differ, run_steps};
pub use searching::next_step;

#[cfg(test)]
mod indexed_tests;
#[cfg(test)]
mod tests;
