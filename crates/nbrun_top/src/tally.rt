//! `Tally`, what came of an exercise.
use job_end::Answer;

/// What came of an exercise: how its one job ended, and what its output has.
#[derive(Debug, Drop)]
pub struct Tally {
    /// The cells of the notebook that was saved; 0 where none was.
    pub cells: u64,
    /// The outputs of all these cells together.
    pub outputs: u64,
    /// How the job ended.
    pub answer: Answer,
}
