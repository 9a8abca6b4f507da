//! `LaunchFault`, why a kernel's program was not started.
use jtext::NoMemory;
use std::error::Error;
use std::fmt;

/// Why a kernel's program was not started.
#[derive(Clone, Copy, Debug, Drop, PartialEq, Eq)]
pub enum LaunchFault {
    /// The start of the child failed.
    Failed,
    /// Memory was refused before a start was asked for.
    NoMemory,
}

impl From<NoMemory> for LaunchFault {
    ghost use Rattle.std.specs.Prelude.{◌≡◌};
    ghost use Rattle.kernel_start.specs.declared.launch_fault.LaunchFault.TheVariants as fault;

    ghost from_gives = { λ _ e. e ≡ fault.NoMemory };

    fn from(_: NoMemory) -> LaunchFault {
        LaunchFault::NoMemory
    }
}

impl fmt::Display for LaunchFault {
    ghost use Rattle.std.specs.Prelude.{Some};
    ghost use Rattle.kernel_start.specs.Messages.{launch_message};

    ghost output = { λ f. Some (launch_message f) };

    fn fmt<W: fmt::Write>(&self, f: &mut fmt::Formatter<W>) -> fmt::Result {
        match self {
            LaunchFault::Failed => write!(f, "cannot start the kernel"),
            LaunchFault::NoMemory => write!(f, "out of memory"),
        }
    }
}

impl Error for LaunchFault {}
