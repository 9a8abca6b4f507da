//! `GraphFault`, why a graph is refused.
ghost use Rattle.std.specs.Prelude.{◌≡◌};

use crate::WaveFault;
use jtext::{NoMemory, Text};
use std::error::Error;
use std::fmt;

/// Why a graph is refused.
#[derive(Debug, Drop, PartialEq, Eq)]
pub enum GraphFault {
    /// The first value that isn't as it has to be, as a JSON pointer (RFC 6901).
    Bad { pointer: Text },
    /// The first job that needs itself, over others or at once, or a job that does.
    Cycle { job: u32 },
    /// A growth was refused.
    NoMemory,
}

impl From<NoMemory> for GraphFault {
    ghost use Rattle.job_graph.specs.declared.graph_fault.GraphFault.TheVariants as fault;

    ghost from_gives = { λ _ e. e ≡ fault.NoMemory };

    fn from(_: NoMemory) -> GraphFault {
        GraphFault::NoMemory
    }
}

impl fmt::Display for GraphFault {
    fn fmt<W: fmt::Write>(&self, f: &mut fmt::Formatter<W>) -> fmt::Result {
        match self {
            GraphFault::Bad { pointer } => write!(f, "no graph: {}", pointer.as_str()),
            GraphFault::Cycle { job } => write!(f, "job {job} needs itself"),
            GraphFault::NoMemory => f.write_str("out of memory"),
        }
    }
}

impl Error for GraphFault {}
