//! The command line and the jobs file: what they ask for, or the first fault with its place.
//! Words and bytes only; it reads no file.
#![tactic(auto)]

mod ask;
mod batch;
mod choice;
mod command;
mod command_line;
mod compose;
mod fault;
mod form;
mod job;
mod kind;
pub mod laws;
mod member;
mod number;
mod parameters;
mod part;
mod path;
mod place;
mod shape;
mod takes;
mod usage;
mod used_path;
mod value;

pub use ask::{Ask, Asks};
pub use batch::jobs;
pub use command::Command;
pub use command_line::read;
pub use usage::Usage;
pub use value::value_of;
