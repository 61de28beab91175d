//! Tests of the desk and of the service over fakes in memory: what is put and answered, and which studies are kept.
#![tactic(auto)]

#[cfg(test)]
mod desk_tests;
#[cfg(test)]
mod serve_tests;
