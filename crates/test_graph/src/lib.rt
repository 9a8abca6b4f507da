//! Tests of graphs of jobs, by public calls alone: what a file gives, why it is refused, and the waves.
#![tactic(auto)]

#[cfg(test)]
mod files;
#[cfg(test)]
mod layers;
