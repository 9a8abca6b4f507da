//! Where a script stands after a row.

/// Where a script stands after a row, which decides what the next row may be.
#[derive(Clone, Copy, Debug, Drop)]
pub(crate) enum Place {
    /// Before the first row, which has to be the head.
    Start,
    /// After the head: an empty row has to follow, if any.
    Between,
    /// After an empty row that has to be followed by a marker.
    Gap,
    /// In the source of a raw cell.
    Raw,
    /// In the source of a markdown cell.
    Markdown,
    /// In the source of a code cell.
    Code,
    /// In the source of a code cell, after an empty row that belongs to it unless a marker follows.
    Blank,
}
