//! `ImageFault`, why there is no image.
ghost use Rattle.std.specs.Prelude.{◌≡◌};

use jtext::NoMemory;
use std::error::Error;
use std::fmt;

/// Why there is no image of what a crash leaves.
#[derive(Clone, Copy, Debug, Drop, PartialEq, Eq)]
pub enum ImageFault {
    /// The journal is no longer told.
    NotTold,
    /// The journal has fewer entries.
    Past,
    /// Memory was refused.
    NoMemory,
}

impl fmt::Display for ImageFault {
    ghost use Rattle.std.specs.Prelude.{Some};
    ghost use Rattle.world_mem.specs.Messages.{message};

    ghost output = { λ f. Some (message f) };

    fn fmt<W: fmt::Write>(&self, f: &mut fmt::Formatter<W>) -> fmt::Result {
        match self {
            ImageFault::NotTold => write!(f, "the journal is not told"),
            ImageFault::Past => write!(f, "past the journal"),
            ImageFault::NoMemory => write!(f, "out of memory"),
        }
    }
}

impl Error for ImageFault {}

impl From<NoMemory> for ImageFault {
    ghost use Rattle.world_mem.specs.declared.image_fault.ImageFault.TheVariants as fault;

    ghost from_gives = { λ _ e. e ≡ fault.NoMemory };

    fn from(_: NoMemory) -> ImageFault {
        ImageFault::NoMemory
    }
}
