//! The kinds of messages whose dates are kept.

/// A kind of messages, of which the date of the last one is kept.
#[derive(Clone, Copy, Debug, Drop)]
pub enum Kind {
    /// `execute_input`
    Input,
    /// `status`, busy
    Busy,
    /// `status`, idle
    Idle,
}
