//! Serving one connection: its request is read, put to a desk, and answered.
#![tactic(auto)]

mod desk;
mod replies;
mod serving;

pub use desk::{Desk, Reply};
pub use serving::{Served, serve_one};

#[cfg(test)]
mod tests;
