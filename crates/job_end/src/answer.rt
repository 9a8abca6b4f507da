//! `Answer`, how a job ended.

use jtext::Bytes;
use std::alloc::Global;

/// How a job ended: its exit status, and the line that is said last of it, with its line feed. Where
/// memory was refused there is no line.
#[derive(Debug, Drop)]
pub struct Answer {
    /// The exit status.
    pub status: u8,
    /// What is said last of the job.
    pub line: Bytes,
}

impl Answer {
    ghost use Rattle.std.specs.Prelude.{◌≡◌};
    ghost use Rattle.job_end.specs.Answers.{starved_answer};

    /// The answer where memory was refused. It takes none.
    pub fn starved(alloc: Global) -> Answer
        ensures { result ≡ starved_answer }
    {
        Answer {
            status: 12,
            line: Bytes::new(alloc),
        }
    }
}
