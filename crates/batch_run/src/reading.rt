//! `Reading`, what is left to be read after a read.

/// What is left to be read after a read.
#[derive(Clone, Copy, Debug, Drop, PartialEq, Eq)]
pub(crate) enum Reading {
    /// Perhaps more.
    GoesOn,
    /// Nothing before the next wait.
    Done,
}
