//! A cell of a notebook.
use crate::Kind;
use jtext::{Items, Json, List, NumText, Text};

/// A cell, its parts as they stand in the file (nbformat 4.5, `cell`).
/// `outputs` and `count` belong to code cells, `attachments` to the other kinds.
#[derive(Debug, Drop)]
pub struct Cell {
    /// What the cell is.
    pub kind: Kind,
    /// The cell's id, unique in its notebook.
    pub id: Text,
    /// An object.
    pub metadata: Json,
    /// A string, or a list of strings that are joined.
    pub source: Json,
    /// An object of bundles, where the file has one.
    pub attachments: Option<Json>,
    /// The outputs of a code cell, and none of another.
    pub outputs: Items,
    /// The execution count of a code cell that has one.
    pub count: Option<NumText>,
}

/// The cells of a notebook, in their order.
pub type Cells = List<Cell>;
