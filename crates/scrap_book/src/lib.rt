//! The values that a finished notebook hands on to later notebooks: its scraps.
//! A cell gives a scrap by printing a row `scrap NAME = VALUE`, or by the library scrapbook.
//! Each name stands once. Notebooks and trees only; it reads and writes no file.
#![tactic(auto)]

mod finding;
pub mod laws;
mod output;
mod row;

pub use finding::scraps;
