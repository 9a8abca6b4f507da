//! What the core is told.
use crate::Brief;

/// One thing that happened to the job.
#[derive(Clone, Copy, Debug, Drop, PartialEq, Eq)]
pub enum Event {
    /// The save last asked for was acknowledged.
    Saved,
    /// The kernel is ready.
    Ready,
    /// An IOPub message with the last request as its parent.
    Io(Brief),
    /// A reply with the last request as its parent.
    Reply {
        /// Whether it stops the job.
        fatal: bool,
    },
    /// The clock was read, in milliseconds since 1970-01-01 UTC: first at the child's start, then
    /// once a turn.
    Moment(u64),
    /// A last look is done: what had arrived was told.
    Looked,
    /// The kernel is gone.
    Lost,
    /// A stream of the kernel is broken.
    Broken,
}
