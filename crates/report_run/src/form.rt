//! The forms of a report.

/// What a report makes.
#[derive(Clone, Copy, Debug, Drop, PartialEq, Eq)]
pub enum Form {
    /// A script of a notebook.
    Script,
    /// A page of a notebook.
    Page,
    /// A notebook of a script.
    Notebook,
}
