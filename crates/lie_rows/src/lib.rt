//! Reduced bases of rows of whole numbers: of what rows span over the rational numbers, and of what they take to 0.
#![tactic(auto)]

mod entry;
mod kept;
mod kernel;
mod lengths;
mod row;
mod rows;
mod solutions;
mod span;

pub use kernel::kernel_basis;
pub use lengths::have_length;
pub use span::span_basis;

#[cfg(test)]
mod tests;
