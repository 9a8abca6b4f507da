//! What a read brought.
use world::Conn;

/// What a read of the loop brought.
#[derive(Clone, Copy, Debug, Drop, PartialEq, Eq)]
pub enum Next {
    /// The first `n` bytes of the buffer, at least one, came on this connection.
    Piece { conn: Conn, n: usize },
    /// The other side has ended this connection.
    Ended(Conn),
    /// This connection was turned away, and is begun again when that is due.
    Refused(Conn),
    /// No connection is to be read before the next wait.
    Quiet,
}
