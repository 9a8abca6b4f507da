//! `End`, how a run ends.
ghost use Rattle.std.specs.Prelude.{◌≡◌};
ghost use Rattle.nbrun_top.specs.Codes.{code_of};

use jtext::NoMemory;
use nb_load::LoadFault;
use save_disk::SaveFault;
use words::Usage;

/// How a run ends, with what its last line names.
#[derive(Debug, Drop)]
pub(crate) enum End {
    /// The notebook with so many cells was saved.
    Done { cells: usize },
    /// The words are refused.
    Refused(Usage),
    /// The input can't be read.
    NotRead,
    /// The input has more bytes than are read.
    TooLarge,
    /// The input gives no notebook that takes the parameters.
    NotLoaded(LoadFault),
    /// The output can't be saved, for this step of the save.
    NotSaved(SaveFault),
    /// Memory was refused.
    NoMemory,
}

impl End {
    /// The exit status, where all that was to be said was said.
    pub(crate) fn code(&self) -> u8
        ensures { result ≡ code_of self.now }
    {
        match self {
            End::Done { .. } => 0,
            End::Refused(_) => 2,
            End::NotRead => 3,
            End::TooLarge => 4,
            End::NotLoaded(LoadFault::NotJson(_)) => 4,
            End::NotLoaded(LoadFault::NotNotebook(_)) => 4,
            End::NotLoaded(LoadFault::NoTranslator { .. }) => 5,
            End::NotLoaded(LoadFault::NoMemory) => 12,
            End::NotSaved(_) => 10,
            End::NoMemory => 12,
        }
    }
}

impl From<NoMemory> for End {
    ghost use Rattle.nbrun_top.specs.declared.end.End.TheVariants as end;

    ghost from_gives = { λ _ e. e ≡ end.NoMemory };

    fn from(_: NoMemory) -> End {
        End::NoMemory
    }
}
