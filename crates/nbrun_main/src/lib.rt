//! The whole program over the real world: what its arguments ask for is done, and the exit status
//! answered. A program that calls `start` is nbrun.
#![tactic(auto)]

mod help;
mod hints;
mod named;
mod printing;
mod program;
mod same_files;
mod used_file;

pub use program::{answer, run_words, start};
