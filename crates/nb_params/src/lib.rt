//! Parameters of a notebook: as Python source, and injected as Papermill does it.
//! Notebooks and trees only; it reads and writes no file.
#![tactic(auto)]

mod fault;
mod fresh;
mod hiding;
mod injection;
mod language;
pub mod laws;
mod literal;
mod new_cell;
mod source;

pub use fault::InjectFault;
pub use injection::inject;
pub use source::python;
