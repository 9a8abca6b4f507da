//! The answer to an event.
use crate::Act;

/// The answer to one event.
#[derive(Clone, Copy, Debug, Drop, PartialEq, Eq)]
pub struct Step {
    /// Whether the event's message, from IOPub or a reply, is used.
    pub takes: bool,
    /// What is to be done next.
    pub act: Act,
}
