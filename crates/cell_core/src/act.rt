//! What is to be done.
use crate::Why;

/// What is to be done next.
#[derive(Clone, Copy, Debug, Drop, PartialEq, Eq)]
pub enum Act {
    /// Nothing.
    Nothing,
    /// Start the kernel.
    Start,
    /// Queue the request of the cell with this index, counted from 0 in the notebook.
    Send(u32),
    /// Make a last look at what has arrived, and tell the core of it before the clock is read
    /// again.
    Look,
    /// Queue an interrupt of the request that stands.
    Interrupt,
    /// Save the notebook with this many cells settled, its first ones.
    Save(u32),
    /// End the job.
    Stop(Why),
}
