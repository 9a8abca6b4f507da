//! Tests of the readiness loop, by public calls alone: which calls of the world each of its calls
//! makes, over the world that does nothing, one that talks back, and one in memory with kernels.
#![tactic(auto)]

#[cfg(test)]
mod faults;
#[cfg(test)]
mod reading;
#[cfg(test)]
mod steps;
#[cfg(test)]
mod talk;
#[cfg(test)]
mod talks;
#[cfg(test)]
mod turns;
#[cfg(test)]
mod worlds;
