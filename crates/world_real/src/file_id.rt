//! `FileId`, which file of the system it is.
use std::fs::Metadata;
use std::os::unix::fs::MetadataExt;

/// Which file of the system it is: no two files that exist have the same (POSIX.1-2017,
/// `sys/stat.h`).
#[derive(Clone, Copy, Debug, Drop, PartialEq, Eq)]
pub struct FileId {
    /// Its device.
    pub dev: u64,
    /// Its number there.
    pub ino: u64,
}

impl FileId {
    /// The file of which the system says this.
    pub fn of(said: &Metadata) -> FileId {
        FileId {
            dev: said.dev(),
            ino: said.ino(),
        }
    }
}
