//! `Step`, what a save adds to the one before it.

/// What a save adds to the one before it.
#[derive(Clone, Copy, Debug, Drop, PartialEq, Eq)]
pub struct Step {
    /// How many cells are settled by now.
    pub from: u32,
    /// How many cells it settles.
    pub to: u32,
    /// The cell at which the run stopped.
    pub stop: Option<u32>,
}
