//! The notebook of a job while its cells are executed: what was used for their requests, and the
//! saves of its prefixes, for which only the texts of cells that have changed are made anew
//! (Papermill and nbclient save after each cell). It calls the disk and the standard output that it
//! is lent.
#![tactic(auto)]

mod forgetting;
pub mod laws;
mod notebook;

pub use notebook::JobNotebook;
