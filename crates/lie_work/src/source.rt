// The texts that are read.

/// A text that is read.
#[derive(Clone, Copy, Debug, PartialEq, Eq)]
pub enum Source {
    /// The file of a system.
    File,
    /// The text of a field.
    Field,
}
