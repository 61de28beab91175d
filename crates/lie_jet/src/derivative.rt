// Derivatives of unknown functions.
ghost use Rattle.std.specs.Prelude.{◌≡◌, ◌<◌, slice_index};
ghost use Rattle.lie_math.specs.Counts.{derivative_cmp, order, raised};
ghost use Rattle.lie_jet.specs.Derivatives.{derivative_of};

use crate::ranks::sum_of_counts;
use std::cmp::Ordering;

/// A derivative of an unknown function.
#[derive(Clone, Copy, PartialEq, Eq, Debug)]
pub struct Der {
    /// The number of the function.
    pub unknown: u32,
    /// How often it is derived by each variable, the independent and then the dependent ones; 0 past the last.
    pub counts: [u8; 8],
}

/// The order in which derivatives are printed: the greater order first, then the greater unknown, then the lexicographically
/// greater counts.
pub fn compare_derivatives(left: &Der, right: &Der) -> Ordering
    ensures { result ≡ derivative_cmp (derivative_of left.now) (derivative_of right.now) }
{
    let order = sum_of_counts(&right.counts).cmp(&sum_of_counts(&left.counts));
    let unknown = right.unknown.cmp(&left.unknown);
    let counts = right.counts.as_slice().cmp(&left.counts.as_slice());
    order.then(unknown.then(counts))
}

/// How often the function is derived, by all variables.
pub fn order_of_derivative(der: &Der) -> u32
    ensures { result ≡ order (derivative_of der.now).counts }
{
    sum_of_counts(&der.counts)
}

/// The function derived once more, by the variable `i`, which is below 8.
pub fn raise_derivative(der: &Der, i: u8) -> Der
    requires within { i < 8 }
    requires low { slice_index der.now.counts i < 255 }
    ensures { derivative_of result ≡ raised i (derivative_of der.now) }
{
    let mut raised = *der;
    raised.counts[usize::from(i)] += 1;
    raised
}
