//! What becomes of a change of a file in memory.

/// Whether a change of a file was made.
#[derive(Clone, Copy, Debug, Drop, PartialEq, Eq)]
pub(crate) enum Edit {
    /// It was made.
    Done,
    /// No file is there.
    Absent,
    /// Memory for it was refused.
    NoMemory,
}
