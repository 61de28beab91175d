//! Systems of differential equations as data, and as the lists that contracts see; the polynomials of equations are within the limits.
#![tactic(auto)]

mod equation;
mod system;
mod within_limits;

pub use equation::Equation;
pub use system::System;
pub use within_limits::sum_within_limits;
