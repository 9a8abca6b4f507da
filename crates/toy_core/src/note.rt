//! What a request brings about, before it is numbered and signed.

use jtext::{Json, List, Text};
use world::Chan;

/// A message by its `msg_type` and its content.
pub(crate) type Saying = (Text, Json);

/// A step of what a request brings about.
#[derive(Debug, Drop)]
pub(crate) enum Note {
    /// A message goes out on a channel.
    Say { chan: Chan, saying: Saying },
    /// What follows comes so many milliseconds later.
    Rest { ms: u64 },
    /// The kernel ends with this status.
    Stop { status: i32 },
}

/// Steps in their order.
pub(crate) type Notes = List<Note>;
