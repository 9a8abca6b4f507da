//! A notebook as a script and as a page of HTML, and a script read back as a notebook.
//! Notebooks and texts only; it reads and writes no file.
#![tactic(auto)]

mod blocks;
mod draft;
mod escape;
pub mod laws;
mod output;
mod place;
mod reading;
mod row;
mod script_fault;
mod writing;

pub use blocks::page;
pub use reading::unscript;
pub use script_fault::ScriptFault;
pub use writing::script;
