//! `SaveFault`, the step that a save failed at.
use std::error::Error;
use std::fmt;

/// The step of a save whose call of the disk failed.
#[derive(Clone, Copy, Debug, Drop, PartialEq, Eq)]
pub enum SaveFault {
    /// The temporary file could not be created or written.
    Write,
    /// The temporary file could not be synced.
    Sync,
    /// The temporary file could not be renamed onto the output.
    Rename,
    /// The output's folder could not be synced.
    DirSync,
}

impl fmt::Display for SaveFault {
    ghost use Rattle.std.specs.Prelude.{Some};
    ghost use Rattle.save_disk.specs.Messages.{message};

    ghost output = { λ f. Some (message f) };

    fn fmt<W: fmt::Write>(&self, f: &mut fmt::Formatter<W>) -> fmt::Result {
        match self {
            SaveFault::Write => write!(f, "write"),
            SaveFault::Sync => write!(f, "sync"),
            SaveFault::Rename => write!(f, "rename"),
            SaveFault::DirSync => write!(f, "directory sync"),
        }
    }
}

impl Error for SaveFault {}
