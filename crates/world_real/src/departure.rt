//! `Departure`, how a child was seen to end.

/// How a child was seen to end by itself, for people. No answer of a world depends on it.
#[derive(Clone, Copy, Debug, Drop, PartialEq, Eq)]
pub struct Departure {
    /// Its exit status, as a shell gives it.
    pub status: i32,
    /// A byte had passed on a connection to it.
    pub was_heard: bool,
    /// The first of its ports on which another program listens.
    pub taken_port: Option<u16>,
}
