//! Tests of what a job says to its kernel, by public calls alone.
#![tactic(auto)]

#[cfg(test)]
mod asking;
#[cfg(test)]
mod lines;
#[cfg(test)]
mod requests;
