//! What follows from the rules of the loop while a job runs.

pub mod cores;
pub mod looks;
