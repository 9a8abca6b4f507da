//! Tests of the real world over files, sockets and programs of the system, by public calls alone,
//! and of the whole program over it.
#![tactic(auto)]

#[cfg(test)]
mod children;
#[cfg(test)]
mod clocks;
#[cfg(test)]
mod files;
#[cfg(test)]
mod held_files;
#[cfg(test)]
mod hints;
#[cfg(test)]
mod ports;
#[cfg(test)]
mod programs;
#[cfg(test)]
mod runs;
#[cfg(test)]
mod said;
#[cfg(test)]
mod slips;
#[cfg(test)]
mod sockets;
#[cfg(test)]
mod sources;
#[cfg(test)]
mod worlds;
