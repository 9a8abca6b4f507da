//! `Workflow`, what a graph's file asks for.
ghost use Rattle.std.specs.Prelude.{◌≡◌};
ghost use Rattle.graph_run.specs.Tests as spec;

use job_graph::{Graph, Take, Waves};
use words::Asks;

/// What a graph's file asks for. Jobs are named by their indices in the file.
#[derive(Debug, Drop)]
pub struct Workflow {
    /// Which jobs need which, and what they take from these.
    pub graph: Graph,
    /// What is asked of each job, with the parameters of the file.
    pub asks: Asks,
    /// The waves in which they run.
    pub waves: Waves,
}

impl Workflow {
    /// The jobs that a job needs.
    pub(crate) fn needs_of(&self, job: usize) -> &[u32]
        ensures { result.now ≡ spec.needs_of self.now job }
    {
        match self.graph.needs.as_slice().get(job) {
            Some(needs) => needs.as_slice(),
            None => &[],
        }
    }

    /// What a job takes.
    pub(crate) fn takes_of(&self, job: usize) -> &[Take]
        ensures { result.now ≡ spec.takes_of self.now job }
    {
        match self.graph.takes.as_slice().get(job) {
            Some(takes) => takes.as_slice(),
            None => &[],
        }
    }

    /// The name of a job, and the empty text where there is no such job.
    pub(crate) fn name_of(&self, job: usize) -> &str
        ensures { result.now ≡ spec.name_of self.now job }
    {
        match self.graph.names.as_slice().get(job) {
            Some(name) => name.as_str(),
            None => "",
        }
    }

    /// The output of a job, and the empty text where there is no such job.
    pub(crate) fn output_of(&self, job: usize) -> &str
        ensures { result.now ≡ spec.output_of self.now job }
    {
        match self.asks.as_slice().get(job) {
            Some(ask) => ask.output.as_str(),
            None => "",
        }
    }
}
