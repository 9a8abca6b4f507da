//! The two calls that a connection can end in.

/// Which call made an entry.
#[derive(Clone, Copy, Debug, Drop, PartialEq, Eq)]
pub enum Side {
    /// A read of the connection.
    Read,
    /// A write to it.
    Write,
}
