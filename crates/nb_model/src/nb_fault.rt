//! `NbFault`, why a tree is refused as a notebook.
ghost use Rattle.std.specs.Prelude.{◌≡◌};

use jtext::{NoMemory, Text};
use std::error::Error;
use std::fmt;

/// What is wrong with a tree, or that memory was refused.
#[derive(Debug, Drop)]
pub enum NbFault {
    /// `nbformat` or `nbformat_minor` isn't that of format 4.5.
    Version,
    /// The tree fails the schema at the place of this JSON pointer (RFC 6901).
    Shape { pointer: Text },
    /// A cell has the id of an earlier one.
    SameId { id: Text },
    /// A growth was refused.
    NoMemory,
}

impl From<NoMemory> for NbFault {
    ghost use Rattle.nb_model.specs.declared.nb_fault.NbFault.TheVariants as fault;

    ghost from_gives = { λ _ e. e ≡ fault.NoMemory };

    fn from(_: NoMemory) -> NbFault {
        NbFault::NoMemory
    }
}

impl fmt::Display for NbFault {
    fn fmt<W: fmt::Write>(&self, f: &mut fmt::Formatter<W>) -> fmt::Result {
        match self {
            NbFault::Version => f.write_str("not nbformat 4.5: version"),
            NbFault::Shape { pointer } => {
                write!(f, "not nbformat 4.5: shape at {}", pointer.as_str())
            }
            NbFault::SameId { id } => write!(f, "not nbformat 4.5: same id {}", id.as_str()),
            NbFault::NoMemory => f.write_str("out of memory"),
        }
    }
}

impl Error for NbFault {}
