//! What a write to a file, or of what is said, answers.

/// What became of a piece that was to be written to a file or to be said.
#[derive(Clone, Copy, Debug, Drop, PartialEq, Eq)]
pub enum Wrote {
    /// So many of its first bytes were taken, at least one.
    Took(u32),
    /// Nothing is known of any of them.
    Failed,
}
