//! What a crash may leave of a file.
use jtext::Bytes;

/// One of the things that a crash may leave at a path.
#[derive(Debug, Drop)]
pub enum Left {
    /// What the path held before the run, a file or none.
    Old,
    /// No file.
    Absent,
    /// A file with just these bytes.
    Whole(Bytes),
    /// A file with any bytes, or none.
    Any,
}
