//! What is said to the user.
ghost use Rattle.std.specs.Prelude.{◌≡◌, ◌<◌, length, IfSome};
ghost use Rattle.world.specs.declared.entry.Entry.{Entry};
ghost use Rattle.world.specs.Counts.{CountsBy, SayCause};
ghost use Rattle.world.specs.Faults.{fault_count};
ghost use Rattle.world.specs.Parts.{OnSay};
ghost use Rattle.world.specs.Rises.{clipped};
ghost use Rattle.world.specs.Told.{Adds, taken_of, did_of, TookSome};

use crate::{Journal, Wrote};

/// The standard output.
pub trait Say: Journal {
    /// How many calls of this trait have failed, up to the last value of a `u64`: the journal's
    /// count, where it is told.
    fn say_faults(&self) -> u64
        ensures is { result ≡ (Self.counts self.now).say }
        ensures told { IfSome (Self.journal self.now)
            (λ past. result ≡ clipped (fault_count OnSay past)) };

    /// Says the first bytes of the piece, at least one.
    fn write(&mut self, piece: &[u8]) -> Wrote
        requires { 0 < length piece.now }
        ensures some { TookSome result piece.now }
        ensures tells { Adds Self.journal self.old self.new
            (Entry.Said (taken_of result piece.now) (did_of result)) }
        ensures cause { CountsBy SayCause Self.counts self.old self.new (result ≡ Wrote.Failed) };
}
