//! What other jobs of a run and its loop do is quiet for a job: it changes nothing of what the
//! job's parts stand for by the journal.
//!
//! A run has one journal, with the entries of all of its jobs and of the readiness loop. `laws`
//! says which of them are quiet for a job, in the words of those who make them. It says too what
//! the rest bring. Nothing here does IO.
#![tactic(auto)]

pub mod laws;
