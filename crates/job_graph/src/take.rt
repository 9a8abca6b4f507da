//! `Take`, a parameter that is taken from another job.
use jtext::{List, Text};

/// A parameter that a job takes from another one.
#[derive(Debug, Drop)]
pub struct Take {
    /// The name of the parameter.
    pub param: Text,
    /// The index of the job that it is taken from.
    pub job: u32,
    /// The name of the scrap that gives the value.
    pub scrap: Text,
}

/// What each job takes, in the order of the jobs.
pub type Takes = List<List<Take>>;
