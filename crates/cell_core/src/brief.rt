//! What the core is told of a message.

/// What an IOPub message says of its request.
#[derive(Clone, Copy, Debug, Drop, PartialEq, Eq)]
pub enum Brief {
    /// The kernel's execution state is `idle`: it is done with the request.
    Idle,
    /// Anything else.
    Else,
}
