//! `Request`, the request that stands.

use jtext::Text;

/// The request of a cell that stands.
#[derive(Debug, Drop)]
pub(crate) struct Request {
    /// Its `msg_id`, the parent of what belongs to it.
    pub id: Text,
    /// The cell, counted from 0 in the notebook.
    pub cell: u32,
    /// Whether the cell is tagged so that its errors are allowed.
    pub is_tagged: bool,
    /// The name of the exception that stops the job.
    pub error: Option<Text>,
}
