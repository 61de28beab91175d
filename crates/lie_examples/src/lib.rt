//! Tests of the whole path: examples with the answers of a model that was written apart, faults and statuses.
#![tactic(auto)]

#[cfg(test)]
mod analyse_tests;
#[cfg(test)]
mod degree_reports;
#[cfg(test)]
mod degree_tests;
#[cfg(test)]
mod example_files;
#[cfg(test)]
mod example_reports;
#[cfg(test)]
mod examples_tests;
#[cfg(test)]
mod hostile_tests;
#[cfg(test)]
mod outcome_tests;
#[cfg(test)]
mod path_tests;
#[cfg(test)]
mod sample_tests;
#[cfg(test)]
mod status_tests;
#[cfg(test)]
mod symmetries_reports;
