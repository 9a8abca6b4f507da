//! What a report is asked for.
use crate::form::Form;
use jtext::Text;

/// What a report is asked for.
#[derive(Debug, Drop)]
pub struct Request {
    /// What it makes.
    pub form: Form,
    /// The path that it reads.
    pub input: Text,
    /// The path that it writes.
    pub output: Text,
}
