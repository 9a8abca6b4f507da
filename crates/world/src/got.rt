//! What a read of a connection answers.

/// What a read of a connection answers.
#[derive(Clone, Copy, Debug, Drop, PartialEq, Eq)]
pub enum Got {
    /// So many bytes stand at the start of the buffer, at least one.
    Piece(usize),
    /// There is nothing to read for now.
    Dry,
    /// The other side has ended the connection.
    Ended,
    /// The connection was turned away. It is closed by this.
    Refused,
    /// The call failed.
    Failed,
}
