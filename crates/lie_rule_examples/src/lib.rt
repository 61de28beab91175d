//! Tests of the rules: systems and what a rule leaves of them, with the answers of a model that was written apart.
#![tactic(auto)]

#[cfg(test)]
mod compared_tests;
#[cfg(test)]
mod plain_tests;
#[cfg(test)]
mod solved_tests;
#[cfg(test)]
mod test_systems;
