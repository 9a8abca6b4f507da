//! The clock.
ghost use Rattle.std.specs.Prelude.{◌≡◌, ◌<◌, ◌≤◌, ◌^◌, IfSome};
ghost use Rattle.world.specs.Places.{time};
ghost use Rattle.world.specs.declared.entry.Entry.{Entry};
ghost use Rattle.world.specs.Told.{Adds};

use crate::Journal;

/// A clock that never falls. Moments are milliseconds since 1970-01-01 UTC, below 2^47.
pub trait Clock: Journal {
    /// The moment now.
    fn now(&mut self) -> u64
        ensures bound { result < 2 ^ 47 }
        ensures later { (Self.counts self.old).last ≤ result }
        ensures tells { Adds Self.journal self.old self.new (Entry.Moment result) }
        ensures counts { Self.counts self.new ≡ record (Self.counts self.old) { last = result } };

    /// What the last `now` gave, and 0 before the first: the journal's time, where it is told.
    fn last(&self) -> u64
        ensures bound { result < 2 ^ 47 }
        ensures is { result ≡ (Self.counts self.now).last }
        ensures told { IfSome (Self.journal self.now) (λ past. result ≡ time past) };
}
