//! How the touched cells were before a message.
use nb_model::Plan;

/// What makes the touched cells what they were before.
#[derive(Drop)]
pub enum Before {
    /// They are the same.
    Same,
    /// The one at this index wasn't there.
    Without(usize),
    /// They were these.
    Cells(Plan),
}
