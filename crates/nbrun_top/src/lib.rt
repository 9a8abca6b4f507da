//! The whole program over a world that is handed in: from the words of the command line to the
//! exit status. Its contract is the promise that nbrun makes; `nbrun_main` calls it with the real
//! world.
#![tactic(auto)]

mod answer;
mod end;
mod execution;
mod exercise_ask;
mod exercise_job;
mod exercise_line;
mod exercise_numbers;
mod exercise_opening;
mod exercise_run;
mod job;
mod jobs_file;
pub mod laws;
mod lines;
mod main_call;
mod parts;
mod plain;
mod plain_run;
mod reports;
mod status;
mod tally;
mod task;

pub use exercise_job::exercise;
pub use exercise_opening::exercise_world;
pub use main_call::{graph_words, report_words, run};
pub use tally::Tally;
