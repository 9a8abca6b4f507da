//! What bounds a run.
ghost use Rattle.std.specs.Prelude.{◌≡◌, ◌^◌};

use jtext::Text;

/// The number of waits of a run, and the absolute path of the working folder.
#[derive(Debug, Drop)]
pub struct Limits {
    /// How often a run may wait.
    pub turns: u64,
    /// The working folder.
    pub here: Text,
}

impl Limits {
    /// The limits of a run of the program: 2^40 waits.
    pub fn usual(here: Text) -> Limits
        ensures turns { result.turns ≡ 2 ^ 40 }
        ensures here { result.here ≡ here }
    {
        Limits {
            turns: 1 << 40,
            here,
        }
    }
}
