//! Tests of whole jobs over the world in memory: with a toy kernel, and with one behind a script that
//! breaks the protocol, falls silent or sends its messages in another order.
#![tactic(auto)]

#[cfg(test)]
mod channels;
#[cfg(test)]
mod checks;
#[cfg(test)]
mod graphs;
#[cfg(test)]
mod jobs;
#[cfg(test)]
mod leaves;
#[cfg(test)]
mod marks;
#[cfg(test)]
mod moments;
#[cfg(test)]
mod notebooks;
#[cfg(test)]
mod numbers;
#[cfg(test)]
mod octets;
#[cfg(test)]
mod orders;
#[cfg(test)]
mod peers;
#[cfg(test)]
mod plays;
#[cfg(test)]
mod queue;
#[cfg(test)]
mod requests;
#[cfg(test)]
mod rule;
#[cfg(test)]
mod runs;
#[cfg(test)]
mod scripted;
#[cfg(test)]
mod silences;
#[cfg(test)]
mod toys;
