//! Whether a call succeeded.

/// Whether a call succeeded.
#[derive(Clone, Copy, Debug, Drop, PartialEq, Eq)]
pub enum Did {
    /// It did what was asked.
    Done,
    /// It failed, and its count of faults rose.
    Failed,
}
