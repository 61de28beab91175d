//! The geometry of differential equations after Olver, "Applications of Lie Groups to Differential Equations": jet coordinates, total
//! derivatives, prolonged fields, the invariance condition, the determining equations. The definitions stand in specs/, and each public
//! function, with an empty body, promises a law of them.
#![tactic(auto)]

pub mod coordinates;
pub mod determining;
pub mod examples;
pub mod invariance;
pub mod norms;
pub mod prolongation;
pub mod totals;
