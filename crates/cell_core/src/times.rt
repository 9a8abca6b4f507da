//! The limits of a job.

/// The limits of a job, in milliseconds.
#[derive(Clone, Copy, Debug, Drop, PartialEq, Eq)]
pub struct Times {
    /// From the child's start to readiness.
    pub start_ms: u64,
    /// From a request to its reply.
    pub limit_ms: Option<u64>,
    /// Whether a request at its limit is interrupted before the job stops.
    pub interrupt: bool,
}
