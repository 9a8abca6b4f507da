//! What a write to a connection answers.

/// What a write to a connection answers.
#[derive(Clone, Copy, Debug, Drop, PartialEq, Eq)]
pub enum Put {
    /// So many of the first bytes were taken, at least one.
    Took(usize),
    /// No byte can be taken for now.
    Stuck,
    /// The other side has ended the connection.
    Ended,
    /// The connection was turned away. It is closed by this.
    Refused,
    /// The call failed.
    Failed,
}
