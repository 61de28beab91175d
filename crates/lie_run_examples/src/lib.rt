//! Tests of runs: every state of twenty runs, with the answers of a model that was written apart, and where each rule applies.
#![tactic(auto)]

#[cfg(test)]
mod applying_tests;
#[cfg(test)]
mod run_tests;
#[cfg(test)]
mod run_texts;
