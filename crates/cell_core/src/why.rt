//! The causes of a stop.

/// Why the job stopped.
#[derive(Clone, Copy, Debug, Drop, PartialEq, Eq)]
pub enum Why {
    /// Each cell of the plan was executed.
    Done,
    /// A reply was fatal.
    CellError,
    /// The kernel wasn't ready at the start deadline.
    NotReady,
    /// The kernel is gone.
    KernelLost,
    /// No reply came by the request's deadline.
    TimedOut,
    /// No idle came within four seconds of the reply.
    NoIdle,
    /// A stream of the kernel is broken.
    BadPeer,
}
