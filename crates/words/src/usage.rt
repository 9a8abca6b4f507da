//! `Usage`, why words or a jobs file are refused.
ghost use Rattle.std.specs.Prelude.{◌≡◌};

use jtext::{NoMemory, Text};
use std::error::Error;
use std::fmt;

/// Why words or a jobs file are refused. `i` is the index of a word, counted from 0; of words
/// beyond the last index that 32 bits hold, it is that one.
#[derive(Debug, Drop)]
pub enum Usage {
    /// A path is missing.
    Missing,
    /// A word that begins with `-` and is no option.
    Unknown { i: u32 },
    /// An option without all of its values.
    NoValue { i: u32 },
    /// A value that is no number, or one out of its range.
    BadNumber { i: u32 },
    /// An option that stands a second time.
    Twice { i: u32 },
    /// A word that goes beyond the form of the command.
    Extra { i: u32 },
    /// The output's path, where a run would write over its input.
    SamePath { i: u32 },
    /// A value that is no name of a parameter.
    BadName { i: u32 },
    /// The first value of the jobs file that isn't as it has to be, or else gives an earlier path
    /// again, by its JSON pointer (RFC 6901).
    BadJobs { pointer: Text },
    /// A growth was refused.
    NoMemory,
}

impl From<NoMemory> for Usage {
    ghost use Rattle.words.specs.declared.usage.Usage.TheVariants as usage;

    ghost from_gives = { λ _ e. e ≡ usage.NoMemory };

    fn from(_: NoMemory) -> Usage {
        Usage::NoMemory
    }
}

impl fmt::Display for Usage {
    ghost use Rattle.std.specs.Prelude.{Some};
    ghost use Rattle.words.specs.Messages.{usage_message};

    ghost output = { λ u. Some (usage_message u) };

    fn fmt<W: fmt::Write>(&self, f: &mut fmt::Formatter<W>) -> fmt::Result {
        match self {
            Usage::Missing => write!(f, "missing"),
            Usage::Unknown { i } => write!(f, "unknown at {i}"),
            Usage::NoValue { i } => write!(f, "no value at {i}"),
            Usage::BadNumber { i } => write!(f, "bad number at {i}"),
            Usage::Twice { i } => write!(f, "twice at {i}"),
            Usage::Extra { i } => write!(f, "extra at {i}"),
            Usage::SamePath { i } => write!(f, "same path at {i}"),
            Usage::BadName { i } => write!(f, "bad name at {i}"),
            Usage::BadJobs { pointer } => {
                let at = pointer.as_str();
                write!(f, "bad jobs at {at}")
            }
            Usage::NoMemory => write!(f, "out of memory"),
        }
    }
}

impl Error for Usage {}
