//! `ScriptFault`, why a text is refused as a script.
ghost use Rattle.std.specs.Prelude.{◌≡◌};

use jtext::NoMemory;
use std::error::Error;
use std::fmt;

/// Why a text is refused as a script.
#[derive(Clone, Copy, Debug, Drop, PartialEq, Eq)]
pub enum ScriptFault {
    /// The number, from 0, of the first line with which nothing that follows makes a script. It is
    /// the number of lines where the text ends too early, and 0 where its bytes aren't UTF-8.
    Line { number: u64 },
    /// A growth was refused.
    NoMemory,
}

impl From<NoMemory> for ScriptFault {
    ghost use Rattle.report_text.specs.declared.script_fault.ScriptFault.TheVariants as fault;

    ghost from_gives = { λ _ e. e ≡ fault.NoMemory };

    fn from(_: NoMemory) -> ScriptFault {
        ScriptFault::NoMemory
    }
}

impl fmt::Display for ScriptFault {
    fn fmt<W: fmt::Write>(&self, f: &mut fmt::Formatter<W>) -> fmt::Result {
        match *self {
            ScriptFault::Line { number } => write!(f, "not a script: line {number}"),
            ScriptFault::NoMemory => f.write_str("out of memory"),
        }
    }
}

impl Error for ScriptFault {}
