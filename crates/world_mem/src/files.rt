//! What a world in memory is made of.
use jtext::{Bytes, List, Text};

/// Files by their paths.
pub type Files = List<(Text, Bytes)>;

/// Numbers or sizes in their order.
pub type Sizes = List<u64>;
