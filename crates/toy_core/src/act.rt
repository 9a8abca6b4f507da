//! What is still to happen on the shell's behalf.

use jtext::{Bytes, Json, List};
use world::Chan;

/// A step that is ready to happen.
#[derive(Debug, Drop)]
pub(crate) enum Act {
    /// Octets go out on a channel.
    Send { chan: Chan, octets: Bytes },
    /// What follows happens so many milliseconds later.
    Pause { ms: u64 },
    /// The kernel ends with this status, and nothing follows.
    End { status: i32 },
    /// The cell with this count is over; `parent` is the header of its request.
    Close { parent: Json, count: u64 },
}

/// Steps in their order.
pub(crate) type Acts = List<Act>;
