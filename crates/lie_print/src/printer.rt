// How texts of variables are made.
use lie_jet::Space;
use std::alloc::Global;

/// Appends texts of variables, terms and sums to a text: it knows how many variables of each kind there are, and the letter of each,
/// the independent ones first.
#[derive(Clone, Copy)]
pub struct Printer<'a> {
    pub alloc: Global,
    pub space: Space,
    pub names: &'a [u8],
}
