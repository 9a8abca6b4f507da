//! `KernelFault`, why no kernel is found for a job.
use jtext::{NoMemory, Text};
use kspec::SpecFault;
use std::error::Error;
use std::fmt;

/// Why no kernel is found for a job; the first that applies, in this order.
#[derive(Debug, Drop)]
pub enum KernelFault {
    /// Neither the words nor the notebook name a kernel.
    NoName,
    /// The name is none that a kernel may have.
    BadName,
    /// The file of the kernel's spec can't be read.
    NotRead {
        /// That file.
        path: Text,
    },
    /// The kernel's spec is refused. A file above 1 MiB is no JSON.
    BadSpec(SpecFault),
    /// Memory was refused.
    NoMemory,
}

impl From<NoMemory> for KernelFault {
    ghost use Rattle.std.specs.Prelude.{◌≡◌};
    ghost use Rattle.kernel_start.specs.declared.kernel_fault.KernelFault.TheVariants as fault;

    ghost from_gives = { λ _ e. e ≡ fault.NoMemory };

    fn from(_: NoMemory) -> KernelFault {
        KernelFault::NoMemory
    }
}

impl fmt::Display for KernelFault {
    ghost use Rattle.std.specs.Prelude.{Some};
    ghost use Rattle.kernel_start.specs.Messages.{kernel_message};

    ghost output = { λ f. Some (kernel_message f) };

    fn fmt<W: fmt::Write>(&self, f: &mut fmt::Formatter<W>) -> fmt::Result {
        match self {
            KernelFault::NoName => write!(f, "no name"),
            KernelFault::BadName => write!(f, "bad name"),
            KernelFault::NotRead { path } => write!(f, "cannot read {}", path.as_str()),
            KernelFault::BadSpec(fault) => write!(f, "{fault}"),
            KernelFault::NoMemory => write!(f, "out of memory"),
        }
    }
}

impl Error for KernelFault {}
