//! `Paths`, the paths of a job.

use jtext::Text;

/// The paths of a job.
#[derive(Debug, Drop)]
pub(crate) struct Paths {
    /// Where the notebook is saved.
    pub output: Text,
    /// The connection file of its kernel.
    pub connection: Text,
    /// The folder that the kernel runs in.
    pub cwd: Text,
}
