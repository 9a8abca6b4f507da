//! Saves of the prefixes of a run: the notebook with what was executed so far is put together
//! (Papermill's marks, nbformat 4.5), and saved so that a crash leaves a whole notebook. It calls
//! the disk and the standard output that it is lent.
#![tactic(auto)]

mod cell_parts;
mod kept_texts;
pub mod laws;
mod planning;
mod progress;
mod progress_fault;
mod settling;
mod step;

pub use progress::Progress;
pub use progress_fault::ProgressFault;
pub use settling::settle;
pub use step::Step;
