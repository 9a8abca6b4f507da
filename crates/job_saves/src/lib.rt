//! The saves of a job one after another: each goes on with a course of prefixes of the notebook, so
//! that a crash leaves one of them whole (Papermill and nbclient save after each cell). It calls
//! the disk and the standard output that it is lent.
#![tactic(auto)]

pub mod laws;
mod saving;

pub use saving::save_next;
