//! `Complaint`, what the system said of a call that failed.
use jtext::Text;
use std::alloc::Global;
use std::io;

/// What the system said of a call that failed, for people. No answer of a world depends on it.
#[derive(Drop)]
pub struct Complaint {
    /// The file or the program that the call named. `None` where it named none, or memory for it
    /// was refused.
    pub name: Option<Text>,
    /// The error.
    pub error: io::Error,
}

/// Keeps the complaint of a call that named this, where it failed.
pub(crate) fn note<T>(
    last: &mut Option<Complaint>,
    alloc: Global,
    name: &str,
    outcome: &io::Result<T>,
) {
    if let Err(error) = outcome {
        *last = Some(Complaint {
            name: Text::of(alloc, name).ok(),
            error: *error,
        });
    }
}

/// Keeps the complaint of a call that named nothing, where it failed.
pub(crate) fn note_unnamed<T>(last: &mut Option<Complaint>, outcome: &io::Result<T>) {
    if let Err(error) = outcome {
        *last = Some(Complaint {
            name: None,
            error: *error,
        });
    }
}
