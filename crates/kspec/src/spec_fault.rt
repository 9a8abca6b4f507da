//! `SpecFault`, why a kernel spec is refused.
ghost use Rattle.std.specs.Prelude.{◌≡◌};

use jtext::NoMemory;
use std::error::Error;
use std::fmt;

/// Why a kernel spec is refused; the first that applies, in this order.
#[derive(Clone, Copy, Debug, Drop, PartialEq, Eq)]
pub enum SpecFault {
    /// The bytes are more than 1 MiB, or spell no JSON object nested at most 100 deep.
    NotJson,
    /// `argv` is no list of at least one string.
    NoArgv,
    /// `env` is there and is no object of strings.
    BadEnv,
    /// An interrupt by message is asked for, and `interrupt_mode` isn't `message`.
    SignalMode,
    /// A growth was refused.
    NoMemory,
}

impl fmt::Display for SpecFault {
    ghost use Rattle.std.specs.Prelude.{Some};
    ghost use Rattle.kspec.specs.Messages.{message};

    ghost output = { λ f. Some (message f) };

    fn fmt<W: fmt::Write>(&self, f: &mut fmt::Formatter<W>) -> fmt::Result {
        match self {
            SpecFault::NotJson => write!(f, "not JSON"),
            SpecFault::NoArgv => write!(f, "no argv"),
            SpecFault::BadEnv => write!(f, "bad env"),
            SpecFault::SignalMode => write!(f, "signal mode"),
            SpecFault::NoMemory => write!(f, "out of memory"),
        }
    }
}

impl Error for SpecFault {}

impl From<NoMemory> for SpecFault {
    ghost use Rattle.kspec.specs.declared.spec_fault.SpecFault.TheVariants as fault;

    ghost from_gives = { λ _ e. e ≡ fault.NoMemory };

    fn from(_: NoMemory) -> SpecFault {
        SpecFault::NoMemory
    }
}
