//! Prolongation: what a vector field does to the jets. The laws of it stand in `laws`.
#![tactic(auto)]

mod absolute;
mod bounds;
mod coefficient;
mod field;
mod norms;
mod single;

pub use bounds::is_bounded_field;
pub use field::prolong_field;
pub use lie_geometry::prolongation as laws;
pub use single::bounded_coefficient;

#[cfg(test)]
mod tests;
