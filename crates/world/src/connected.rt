//! What a connect answers.

/// What became of a connect.
#[derive(Clone, Copy, Debug, Drop, PartialEq, Eq)]
pub enum Connected {
    /// The connection was begun.
    Begun,
    /// Nobody took it up. This is an answer and no fault.
    Refused,
    /// The call failed.
    Failed,
}
