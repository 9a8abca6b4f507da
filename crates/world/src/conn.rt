//! The connections to the kernels.
use crate::Chan;

/// Our connection to one channel of a job's kernel. The number of a job is below 16.
#[derive(Clone, Copy, Debug, Drop, PartialEq, Eq)]
pub struct Conn {
    /// The job, from 0.
    pub job: u8,
    /// The channel of its kernel.
    pub chan: Chan,
}
