//! What a read of a file answers.
use jtext::Bytes;

/// What a read of a whole file answers.
#[derive(Debug, Drop)]
pub enum ReadFile {
    /// The bytes of the file.
    Whole(Bytes),
    /// The file has more bytes than were allowed.
    Big,
    /// The read failed. An absent file is a failure.
    Failed,
    /// Memory for the bytes was refused.
    NoMemory,
}
