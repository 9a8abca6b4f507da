//! `WaveFault`, why jobs have no waves.
ghost use Rattle.std.specs.Prelude.{◌≡◌};

use jtext::NoMemory;
use std::error::Error;
use std::fmt;

/// Why jobs that need each other have no waves.
#[derive(Clone, Copy, Debug, Drop, PartialEq, Eq)]
pub enum WaveFault {
    /// The first job that needs itself, over others or at once, or a job that does.
    Cycle { job: u32 },
    /// A growth was refused.
    NoMemory,
}

impl From<NoMemory> for WaveFault {
    ghost use Rattle.job_graph.specs.declared.wave_fault.WaveFault.TheVariants as fault;

    ghost from_gives = { λ _ e. e ≡ fault.NoMemory };

    fn from(_: NoMemory) -> WaveFault {
        WaveFault::NoMemory
    }
}

impl fmt::Display for WaveFault {
    fn fmt<W: fmt::Write>(&self, f: &mut fmt::Formatter<W>) -> fmt::Result {
        match *self {
            WaveFault::Cycle { job } => write!(f, "job {job} needs itself"),
            WaveFault::NoMemory => f.write_str("out of memory"),
        }
    }
}

impl Error for WaveFault {}
