//! `End`, how a graph ends that has no jobs.
ghost use Rattle.std.specs.Prelude.{◌≡◌};
ghost use Rattle.graph_run.specs.Lines.{code_of};

use words::Usage;

/// How a graph ends whose words or file give no jobs.
#[derive(Debug, Drop)]
pub(crate) enum End {
    /// The words or the file are refused.
    Refused(Usage),
    /// The file can't be read.
    NotRead,
    /// Memory was refused.
    NoMemory,
}

impl End {
    /// The exit status.
    pub(crate) fn code(&self) -> u8
        ensures { result ≡ code_of self.now }
    {
        match self {
            End::Refused(_) => 2,
            End::NotRead => 3,
            End::NoMemory => 12,
        }
    }
}
