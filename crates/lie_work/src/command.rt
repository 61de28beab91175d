// The commands on a file.

/// What is asked of the system of a file.
#[derive(Clone, Copy, Debug, PartialEq, Eq)]
pub enum FileCommand<T> {
    /// Its determining equations.
    Determine,
    /// Whether a field is a symmetry of it: the text of the field.
    Check(T),
    /// Its symmetries: the steps that the run of its determining equations may make.
    Analyse(u64),
    /// Its symmetries up to a degree.
    Degree(u8),
}
