//! The begin of a job: its notebook is read, its parameters injected, its kernel found, its first
//! save made and the kernel started; or the notebook is saved at once where nothing is executed
//! (Papermill; nbclient). It calls the parts of the world that it is lent.
#![tactic(auto)]

mod beginning;
mod laws;

pub use beginning::begin;
