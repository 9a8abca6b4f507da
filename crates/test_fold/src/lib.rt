//! Tests of the contents of messages, of the index of display ids, of the fold over a notebook's
//! cells and of the core of a job, by public calls alone.
#![tactic(auto)]

#[cfg(test)]
mod answers;
#[cfg(test)]
mod contents;
#[cfg(test)]
mod outputs;
#[cfg(test)]
mod places;
#[cfg(test)]
mod requests;
#[cfg(test)]
mod trees;
#[cfg(test)]
mod twins;
