//! The text of a notebook as Jupyter's own tools save it, whole or cell by cell, and notebooks that
//! are generated.
//! Notebooks and bytes only; it reads and writes no file.
#![tactic(auto)]

mod cell_lines;
mod generator;
pub mod laws;
mod lines;
mod notebook_text;

pub use cell_lines::cell_text;
pub use generator::generate;
pub use notebook_text::{join, text, text_with_capacity};
