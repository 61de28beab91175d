//! The service: connections served one after the other over a keeper of studies.
#![tactic(auto)]

mod calls;
mod desk;
pub mod laws;
mod replies;
mod serving;

pub use lie_serve::Served;
pub use serving::{serve, serve_one};
