//! The language of the toy kernel, a small kernel for tests: what a text of it does, line by line,
//! with the variables that stand from one text to the next. It does no IO.
#![tactic(auto)]

mod deed;
mod effect;
mod execution;
mod expression;
pub mod laws;
mod line;
mod literal;
mod state;
mod statement;
mod verb;

pub use effect::{Effect, Effects};
pub use execution::run;
pub use state::State;
