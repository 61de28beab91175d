//! HTTP over a link: which request the bytes of a connection are, where it leads, and which bytes an answer is.
#![tactic(auto)]

mod answer;
mod framing;
mod head;
pub mod laws;
mod methods;
mod names;
mod orders;
mod places;
mod reading;
mod request;
mod routes;

pub use answer::{Answer, write_answer, write_no_memory};
pub use names::names_json;
pub use orders::{Destination, Order, destination_of};
pub use reading::read_request;
pub use request::{Ask, HttpFault};

#[cfg(test)]
mod tests;
