//! `Row`, the runs that are watched.
use samples::notebooks::TWO;

/// One of the runs that are watched.
#[derive(Clone, Copy, Debug, Drop, PartialEq, Eq)]
pub enum Row {
    /// One notebook of two cells.
    Two,
    /// The same, over an output that stands there before.
    Over,
    /// Two notebooks of one cell each, which sleeps five seconds, side by side.
    Batch,
}

/// A notebook whose one cell sleeps five seconds.
const SLEEPER: &str =
    r#"{"cells":[{"cell_type":"code","execution_count":null,"id":"a","metadata":{},"outputs":[],"source":["sleep 5000"]}],"metadata":{"kernelspec":{"display_name":"Toy","name":"toy"}},"nbformat":4,"nbformat_minor":5}"#;

/// What stands at the output before.
const OLD: &str = "old\n";

/// The jobs of both notebooks that sleep.
const JOBS: &str =
    r#"{"jobs":[{"input":"in.ipynb","output":"out.ipynb"},{"input":"in-2.ipynb","output":"out-2.ipynb"}]}"#;

impl Row {
    /// The words of the run.
    pub fn words(self) -> &'static [&'static str] {
        match self {
            Row::Two | Row::Over => &["in.ipynb", "out.ipynb"],
            Row::Batch => &["--jobs", "jobs.json"],
        }
    }

    /// The files that the run reads, by their paths, besides the kernel's description.
    pub fn inputs(self) -> &'static [(&'static str, &'static str)] {
        match self {
            Row::Two | Row::Over => &[("in.ipynb", TWO)],
            Row::Batch => &[
                ("in.ipynb", SLEEPER),
                ("in-2.ipynb", SLEEPER),
                ("jobs.json", JOBS),
            ],
        }
    }

    /// The notebooks that the run writes.
    pub fn outputs(self) -> &'static [&'static str] {
        match self {
            Row::Two | Row::Over => &["out.ipynb"],
            Row::Batch => &["out.ipynb", "out-2.ipynb"],
        }
    }

    /// What stands at each output before the run, where something does.
    pub(crate) fn old(self) -> Option<&'static str> {
        match self {
            Row::Over => Some(OLD),
            Row::Two | Row::Batch => None,
        }
    }
}
