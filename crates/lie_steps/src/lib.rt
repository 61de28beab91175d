//! The ten rules by which linear systems are solved step by step: what each needs, what it makes, and that it keeps the fields.
#![tactic(auto)]

pub mod absent;
pub mod bulk_examples;
pub mod cross;
pub mod examples;
pub mod foreign;
pub mod integrate;
pub mod isolate;
pub mod lowest;
pub mod make_examples;
pub mod normal_forms;
pub mod reduce;
pub mod rule_examples;
pub mod runs;
pub mod split;
pub mod step_examples;
pub mod substitute;
pub mod tidying;
pub mod zero;
