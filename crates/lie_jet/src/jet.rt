// Jets.

/// A derivative of a dependent variable: a coordinate of the space of jets.
#[derive(Clone, Copy, PartialEq, Eq, Debug)]
pub struct Jet {
    /// The dependent variable, from 0.
    pub dep: u8,
    /// How often it is derived by each independent variable, 0 past the last.
    pub counts: [u8; 4],
}
