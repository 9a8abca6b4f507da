//! Why a call of the loop refused.
use world::Conn;

/// Why a call of the loop refused.
#[derive(Clone, Copy, Debug, Drop, PartialEq, Eq)]
pub enum LoopFault {
    /// A call of the wire failed: one of this connection, or a wait where there is none.
    NetFault { conn: Option<Conn> },
    /// All the waits were made.
    Spent,
}
