//! `Ask`, what one job is to do.
use jtext::{Fields, List, Text, Texts};

/// What is asked of one job. Times are in milliseconds.
#[derive(Debug, Drop)]
pub struct Ask {
    /// The notebook that is read.
    pub input: Text,
    /// The notebook that is written.
    pub output: Text,
    /// The kernel's name, if the notebook's own isn't wanted.
    pub kernel: Option<Text>,
    /// The folder of the kernels' specs.
    pub kernel_path: Text,
    /// The folder that the kernel runs in.
    pub cwd: Text,
    /// The parameters, no name twice, in the order in which each came first.
    pub params: Fields,
    /// Nothing is executed: the notebook is saved with its parameters.
    pub prepare: bool,
    /// Sources are hidden.
    pub report: bool,
    /// Outputs of one stream that follow each other are joined.
    pub merge: bool,
    /// An error of a cell doesn't stop the run.
    pub all_errors: bool,
    /// A cell that takes too long is interrupted before its job ends.
    pub interrupt: bool,
    /// The kernel is pinged.
    pub heartbeat: bool,
    /// The names of the errors that don't stop the run.
    pub names: Texts,
    /// How long the kernel may take to be ready.
    pub start_ms: u64,
    /// How long a cell may take, if that is limited.
    pub limit_ms: Option<u64>,
}

/// What is asked of several jobs, in their order.
pub type Asks = List<Ask>;
