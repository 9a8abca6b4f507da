//! The kinds of cells (nbformat 4.5, `cell_type`).

/// What a cell is.
#[derive(Clone, Copy, Debug, Drop, PartialEq, Eq)]
pub enum Kind {
    /// Text that is passed on unread.
    Raw,
    /// Markdown, with attachments.
    Markdown,
    /// Source that a kernel executes, with outputs.
    Code,
}
