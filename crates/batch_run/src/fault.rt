//! `Fault`, what a failed call of the connections means.

/// What ends by a failed call of the connections.
#[derive(Clone, Copy, Debug, Drop, PartialEq, Eq)]
pub(crate) enum Fault {
    /// The job of this number: a call of one of its connections failed.
    OfJob(u8),
    /// All jobs: no wait comes back.
    OfAll,
    /// All jobs: all the waits were made.
    Spent,
}
