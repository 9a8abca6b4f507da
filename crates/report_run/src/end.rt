//! `End`, how a report ends.
ghost use Rattle.std.specs.Prelude.{◌≡◌};
ghost use Rattle.report_run.specs.Codes.{code_of};

use jtext::NoMemory;
use nb_load::LoadFault;
use save_disk::SaveFault;
use words::Usage;

/// How a report ends, with what its line names.
#[derive(Debug, Drop)]
pub(crate) enum End {
    /// The text was saved.
    Done,
    /// The words are refused.
    Refused(Usage),
    /// The input can't be read.
    NotRead,
    /// The input has more bytes than are read.
    TooLarge,
    /// The input gives no notebook.
    NotLoaded(LoadFault),
    /// The input is no script, from this line on, counted from 0.
    NotScript { number: u64 },
    /// The output can't be saved, for this step of the save.
    NotSaved(SaveFault),
    /// Memory was refused.
    NoMemory,
}

impl End {
    /// The exit status, where the line could be said.
    pub(crate) fn code(&self) -> u8
        ensures { result ≡ code_of self.now }
    {
        match self {
            End::Done => 0,
            End::Refused(_) => 2,
            End::NotRead => 3,
            End::TooLarge => 4,
            End::NotLoaded(_) => 4,
            End::NotScript { .. } => 4,
            End::NotSaved(_) => 10,
            End::NoMemory => 12,
        }
    }
}

impl From<NoMemory> for End {
    ghost use Rattle.report_run.specs.declared.end.End.TheVariants as end;

    ghost from_gives = { λ _ e. e ≡ end.NoMemory };

    fn from(_: NoMemory) -> End {
        End::NoMemory
    }
}
