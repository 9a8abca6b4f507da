//! `Request`, what is known of the request that stands.

/// The request that stands, by its place in the plan, and what came for it.
#[derive(Clone, Copy, Debug, Drop, PartialEq, Eq)]
pub struct Request {
    /// Its place in the plan, counted from 0.
    pub at: usize,
    /// Whether its reply stops the job, once it came.
    pub fatal: Option<bool>,
    /// Whether its idle came.
    pub idle: bool,
    /// Its deadline, in milliseconds since 1970-01-01 UTC.
    pub due: Option<u64>,
    /// Whether its interrupt was sent.
    pub interrupted: bool,
}
