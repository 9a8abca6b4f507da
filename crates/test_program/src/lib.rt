//! Tests of the program over a world in memory, by public calls alone: what a run answers, says and saves, and
//! which calls of the disk a save makes.
#![tactic(auto)]

#[cfg(test)]
mod batches;
#[cfg(test)]
mod entries;
#[cfg(test)]
mod exercises;
#[cfg(test)]
mod notebooks;
#[cfg(test)]
mod refusals;
#[cfg(test)]
mod reports;
#[cfg(test)]
mod runs;
#[cfg(test)]
mod saves;
#[cfg(test)]
mod starts;
