//! `ProgressFault`, why a prefix was not saved.
use jtext::NoMemory;
use save_disk::SaveFault;
use std::error::Error;
use std::fmt;

/// Why a prefix was not saved.
#[derive(Clone, Copy, Debug, Drop, PartialEq, Eq)]
pub enum ProgressFault {
    /// The save failed at this step.
    Save(SaveFault),
    /// An earlier save of the same object failed.
    Closed,
    /// Memory was refused before anything was asked of the disk.
    NoMemory,
}

impl From<NoMemory> for ProgressFault {
    ghost use Rattle.std.specs.Prelude.{◌≡◌};
    ghost use Rattle.progress_save.specs.declared.progress_fault.ProgressFault.TheVariants as fault;

    ghost from_gives = { λ _ e. e ≡ fault.NoMemory };

    fn from(_: NoMemory) -> ProgressFault {
        ProgressFault::NoMemory
    }
}

impl fmt::Display for ProgressFault {
    ghost use Rattle.std.specs.Prelude.{Some};
    ghost use Rattle.progress_save.specs.Messages.{message};

    ghost output = { λ f. Some (message f) };

    fn fmt<W: fmt::Write>(&self, f: &mut fmt::Formatter<W>) -> fmt::Result {
        match self {
            ProgressFault::Save(fault) => write!(f, "{fault}"),
            ProgressFault::Closed => write!(f, "an earlier save failed"),
            ProgressFault::NoMemory => write!(f, "out of memory"),
        }
    }
}

impl Error for ProgressFault {}
