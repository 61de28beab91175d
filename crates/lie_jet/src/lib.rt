//! Jets as code: the coordinates of a space of derivatives and their numbers, total derivatives of polynomials in them, and vector
//! fields.
#![tactic(auto)]

mod absolute_values;
mod derivative;
mod field;
mod jet;
mod jets_in_order;
mod lowering;
mod numbering;
mod ranks;
mod slopes;
mod space;
mod totals;
mod variables;

pub use absolute_values::{absolute_polynomial, absolute_value};
pub use derivative::{Der, compare_derivatives, order_of_derivative, raise_derivative};
pub use field::Field;
pub use jet::Jet;
pub use jets_in_order::{jets_up_to, order_of};
pub use lowering::lowered;
pub use numbering::{jet_number, jet_of};
pub use slopes::raise_jet;
pub use space::{Space, space_is_small};
pub use totals::{JetPoly, total};
pub use variables::{dependent_slope, signed_variable};

#[cfg(test)]
mod tests;
