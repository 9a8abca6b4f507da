//! Tests of whole runs over real sockets, with the toy kernel as a child program, by public calls
//! alone, and of the hints that only such runs give.
#![tactic(auto)]

#[cfg(test)]
mod descriptors;
#[cfg(test)]
mod kernels;
#[cfg(test)]
mod programs;
#[cfg(test)]
mod sockets;
#[cfg(test)]
mod taken_ports;
#[cfg(test)]
mod unanswered;
