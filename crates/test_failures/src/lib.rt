//! Tests of the program over the world in memory in which one call after another fails, or the disk
//! behind each number of its calls.
#![tactic(auto)]

#[cfg(test)]
mod calls;
#[cfg(test)]
mod fuses;
#[cfg(test)]
mod old_outputs;
