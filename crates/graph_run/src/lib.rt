//! The graph command over a world that is handed in: jobs that need each other run in waves, and
//! parameters are taken from the outputs of earlier jobs, from the words to the exit status.
#![tactic(auto)]

mod answer;
mod asks;
mod command;
mod end;
mod ended;
mod file;
pub mod laws;
mod lines;
mod refusal;
mod scrap;
mod standing;
mod statuses;
mod tested;
mod testing;
mod wave;
mod words_read;
mod workflow;

pub use command::graph;
pub use ended::Ended;
pub use file::workflow_of;
pub use refusal::Refusal;
pub use words_read::read_graph_words;
pub use workflow::Workflow;
