//! The report command over a world that is handed in: a script or a page of a notebook, or the
//! notebook of a script, from the words to the exit status.
#![tactic(auto)]

mod answer;
mod command;
mod end;
mod form;
mod lines;
mod making;
mod reports;
mod request;
mod saving;
mod status;
mod words_read;

pub use command::report;
pub use form::Form;
pub use request::Request;
pub use words_read::read_words;
