//! `ConnectionFault`, why a connection file was not written.
use jtext::NoMemory;
use std::error::Error;
use std::fmt;

/// Why a connection file was not written.
#[derive(Clone, Copy, Debug, Drop, PartialEq, Eq)]
pub enum ConnectionFault {
    /// A call of the disk failed.
    Failed,
    /// Memory was refused before anything was asked of the disk.
    NoMemory,
}

impl From<NoMemory> for ConnectionFault {
    ghost use Rattle.std.specs.Prelude.{◌≡◌};
    ghost use Rattle.kernel_start.specs.declared.connection_fault.ConnectionFault.TheVariants as fault;

    ghost from_gives = { λ _ e. e ≡ fault.NoMemory };

    fn from(_: NoMemory) -> ConnectionFault {
        ConnectionFault::NoMemory
    }
}

impl fmt::Display for ConnectionFault {
    ghost use Rattle.std.specs.Prelude.{Some};
    ghost use Rattle.kernel_start.specs.Messages.{connection_message};

    ghost output = { λ f. Some (connection_message f) };

    fn fmt<W: fmt::Write>(&self, f: &mut fmt::Formatter<W>) -> fmt::Result {
        match self {
            ConnectionFault::Failed => write!(f, "connection file"),
            ConnectionFault::NoMemory => write!(f, "out of memory"),
        }
    }
}

impl Error for ConnectionFault {}
