//! Tests of notebooks by the public calls of the crates that read, prepare and write them.
#![tactic(auto)]

#[cfg(test)]
mod faults;
#[cfg(test)]
mod older;
#[cfg(test)]
mod parameters;
#[cfg(test)]
mod reading;
#[cfg(test)]
mod runs;
#[cfg(test)]
mod texts;
