//! Parts of linear forms: the triples at each monomial in some variables, and sums of triples.
#![tactic(auto)]

mod buckets;
mod parts;
mod sums;

pub use buckets::Bucket;
pub use parts::{Inside, buckets_of};
pub use sums::sum_of;
