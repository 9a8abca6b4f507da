//! Notebooks of nbformat 4.0 to 4.4, read as notebooks of 4.5.
//! Trees only; it reads and writes no file.
#![tactic(auto)]

pub mod laws;
mod migration;
mod raising;

pub use migration::of_any;
