//! A notebook.
use crate::Cells;
use jtext::Json;

/// A notebook of format 4.5: its metadata, an object, and its cells.
#[derive(Debug, Drop)]
pub struct Notebook {
    /// The notebook's own metadata, an object.
    pub metadata: Json,
    /// The cells, in their order.
    pub cells: Cells,
}
