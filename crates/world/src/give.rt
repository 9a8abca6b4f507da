//! What a kernel in memory hands out.

/// What a kernel hands out on a channel.
#[derive(Clone, Copy, Debug, Drop, PartialEq, Eq)]
pub enum Give {
    /// So many bytes stand at the start of the buffer, at least one.
    Bytes(usize),
    /// It has nothing for now.
    Nothing,
    /// It has ended this connection.
    Ended,
}
