//! `Graph`, jobs that need each other.
use crate::{Needs, Takes};
use jtext::{Json, Texts};

/// Jobs that need each other. Each list is in the order of the jobs in the file.
#[derive(Debug, Drop)]
pub struct Graph {
    /// Their names.
    pub names: Texts,
    /// For each job the indices of those that it needs.
    pub needs: Needs,
    /// What each job takes from those that it needs.
    pub takes: Takes,
    /// The jobs file that stays without names, needs and takes.
    pub rest: Json,
}
