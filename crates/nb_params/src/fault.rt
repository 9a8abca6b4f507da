//! Why parameters are not injected.
ghost use Rattle.std.specs.Prelude.{◌≡◌};

use jtext::{NoMemory, Text};
use std::error::Error;
use std::fmt;

/// Why parameters are not injected.
#[derive(Debug, Drop)]
pub enum InjectFault {
    /// Parameters can't be written in the language of the notebook's cells.
    NoTranslator {
        /// That language.
        language: Text,
    },
    /// A growth was refused.
    NoMemory,
}

impl From<NoMemory> for InjectFault {
    ghost use Rattle.nb_params.specs.declared.fault.InjectFault.TheVariants as fault;

    ghost from_gives = { λ _ e. e ≡ fault.NoMemory };

    fn from(_: NoMemory) -> InjectFault {
        InjectFault::NoMemory
    }
}

impl fmt::Display for InjectFault {
    fn fmt<W: fmt::Write>(&self, f: &mut fmt::Formatter<W>) -> fmt::Result {
        match self {
            InjectFault::NoTranslator { language } => {
                write!(f, "cannot inject into {}", language.as_str())
            }
            InjectFault::NoMemory => f.write_str("out of memory"),
        }
    }
}

impl Error for InjectFault {}
