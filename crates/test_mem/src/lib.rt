//! Tests of the worlds in memory, by public calls alone: what each call answers and tells, which
//! calls fail, when the clock moves, and what images of a crash hold. What is done to a world stands
//! in functions over any world, so that the exact clauses of one in memory weigh on no proof.
#![tactic(auto)]

#[cfg(test)]
mod calls;
#[cfg(test)]
mod connections;
#[cfg(test)]
mod disk;
#[cfg(test)]
mod failures;
#[cfg(test)]
mod images;
#[cfg(test)]
mod nothing;
#[cfg(test)]
mod saves;
#[cfg(test)]
mod seen;
#[cfg(test)]
mod worlds;
