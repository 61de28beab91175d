// What a check finds.

use lie_jet::JetPoly;

/// Whether a field meets the invariance condition.
#[derive(Drop)]
pub enum Verdict {
    /// It does.
    Yes,
    /// It does not.
    No {
        /// The first equation whose condition fails, counted from 1.
        equation: u32,
        /// What the condition is reduced to, which is not 0.
        remainder: JetPoly,
    },
}
