//! `Verb`, what a line does with the value of its expression.

/// What a line does with the value of its expression.
#[derive(Clone, Copy, Debug, Drop)]
pub(crate) enum Verb {
    Assign,
    Print,
    PrintError,
    Show,
    Update,
    Conclude,
    Raise,
}
