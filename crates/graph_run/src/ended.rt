//! `Ended`, a job that has ended.

/// A job that has ended, by its index in the file, with its exit status.
#[derive(Clone, Copy, Debug, Drop, PartialEq, Eq)]
pub struct Ended {
    /// The index of the job.
    pub job: u32,
    /// Its exit status.
    pub status: u8,
}
