//! How a world in memory is to behave.
use crate::Sizes;

/// How a world in memory behaves.
#[derive(Drop)]
pub struct Script {
    /// The clock at the start, in milliseconds since 1970-01-01 UTC, below 2^47.
    pub start_ms: u64,
    /// How many bytes the reads of connections give at most, in turn and again from the first. 0
    /// counts as 1, and an empty list caps nothing.
    pub pieces: Sizes,
    /// The numbers, from 0, of the calls that fail where they can: all calls that make an entry are
    /// numbered together, in their order.
    pub fails: Sizes,
    /// How many connects, the first ones, are refused.
    pub refusals: u32,
}
