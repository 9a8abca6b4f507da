//! Notebooks by the nbformat 4.5 schema: which trees are notebooks, and a notebook as its cells.
//! Texts and trees only; it reads and writes no file.
#![tactic(auto)]

mod accept;
mod cell;
mod cell_places;
mod key_lists;
mod kind;
pub mod laws;
mod multiline;
mod nb_fault;
mod notebook;
mod output_places;
mod parts;
mod places;
mod pointer;
mod preparation;
mod schedule;
mod source;
mod validity;
mod value_places;

pub use accept::of_json;
pub use cell::{Cell, Cells};
pub use kind::Kind;
pub use multiline::split_lines;
pub use nb_fault::NbFault;
pub use notebook::Notebook;
pub use preparation::prepare;
pub use schedule::{Plan, plan};
pub use source::{code, tagged};
pub use validity::is_valid;
