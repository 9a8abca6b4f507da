//! Tests of scripts and pages by the public calls of the crates that make and read them.
#![tactic(auto)]

#[cfg(test)]
mod commands;
#[cfg(test)]
mod pages;
#[cfg(test)]
mod reading;
#[cfg(test)]
mod refusals;
#[cfg(test)]
mod scripts;
