//! The random source.
ghost use Rattle.std.specs.Prelude.{◌≡◌, IfSome};
ghost use Rattle.world.specs.declared.entry.Entry.{Entry};
ghost use Rattle.world.specs.Counts.{CountsBy, RandCause};
ghost use Rattle.world.specs.Faults.{fault_count};
ghost use Rattle.world.specs.Parts.{OnRand};
ghost use Rattle.world.specs.Rises.{clipped};
ghost use Rattle.world.specs.Told.{Adds};

use crate::Journal;

/// A source of random words.
pub trait Rand: Journal {
    /// How many words could not be had, up to the last value of a `u64`: the journal's count, where
    /// it is told.
    fn rand_faults(&self) -> u64
        ensures is { result ≡ (Self.counts self.now).rand }
        ensures told { IfSome (Self.journal self.now)
            (λ past. result ≡ clipped (fault_count OnRand past)) };

    /// A random word, and `None` where the source failed.
    fn word(&mut self) -> Option<u64>
        ensures tells { Adds Self.journal self.old self.new (Entry.Word result) }
        ensures cause { CountsBy RandCause Self.counts self.old self.new (result ≡ None) };
}
