//! `Plain`, what the words ask for where no notebook is executed.

use words::{Ask, Usage};

/// What the words ask for where no notebook is executed.
#[derive(Debug, Drop)]
pub(crate) enum Plain {
    /// A job that only prepares its notebook.
    Prepare(Ask),
    /// The words are refused.
    Refused(Usage),
}
