//! How a job ends: the causes with what their last line names, the exit status of each, and the line.
#![tactic(auto)]

mod answer;
mod end;
mod reasons;

pub use answer::Answer;
pub use end::End;
