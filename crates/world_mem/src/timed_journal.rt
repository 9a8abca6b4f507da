//! A journal with a clock.
ghost use Rattle.std.specs.Prelude.{◌≡◌, ◌∷◌, ◌<◌, ◌^◌, [], IfOk, IsOkAnd, None, Some, option_map};
ghost use Rattle.world.specs.declared.entry.Entry.{Entry};
ghost use Rattle.world.specs.Moments.{Told, Tells};
ghost use Rattle.world.specs.Waits.{moment_of};
ghost use Rattle.world_mem.specs.Journals.{told_of, time_told};

use crate::telling;
use jtext::NoMemory;
use std::alloc::Global;
use world::{Entries, Entry};

/// A journal that is told until memory for an entry is refused, and the clock's last moment.
#[derive(Drop)]
pub struct TimedJournal {
    entries: Option<Entries>,
    last: u64,
    ghost below: { last < 2 ^ 47 },
    ghost timely: { time_told (told_of entries) last ≡ last },
}

impl TimedJournal {
    /// A journal with no entry yet; the last moment is 0.
    pub fn new(alloc: Global) -> TimedJournal
        ensures told { told_of result.entries ≡ Some [] }
        ensures moment { result.last ≡ 0 }
    {
        TimedJournal {
            entries: Some(Entries::new(alloc)),
            last: 0,
        }
    }

    /// The entries so far, the oldest first, and `None` where they are no longer told.
    pub fn entries(&self) -> Option<&Entries>
        ensures { option_map (λ entries. entries.now) result ≡ self.now.entries }
    {
        self.entries.as_ref()
    }

    /// The last moment.
    pub fn last(&self) -> u64
        ensures bound { result < 2 ^ 47 }
        ensures is { result ≡ self.now.last }
    {
        self.last
    }

    /// Adds an entry of any call but the clock's, or ends the telling.
    pub fn tell(&mut self, entry: Result<Entry, NoMemory>)
        requires { IfOk entry (λ e. moment_of e ≡ None) }
        ensures tells { Told (told_of self.old.entries) (told_of self.new.entries)
            (λ before after. IsOkAnd entry (λ e. after ≡ e ∷ before)) }
        ensures same { self.new.last ≡ self.old.last }
    {
        let mut entries = self.entries.take();
        telling::tell(&mut entries, entry);
        *self = TimedJournal {
            entries,
            last: self.last,
        };
    }

    /// Adds an entry of the clock, or ends the telling.
    pub fn tell_moment(&mut self, ms: u64)
        requires { ms < 2 ^ 47 }
        ensures tells { Tells (told_of self.old.entries) (told_of self.new.entries)
            (Entry.Moment ms) }
        ensures is { self.new.last ≡ ms }
    {
        let mut entries = self.entries.take();
        telling::tell(&mut entries, Ok(Entry::Moment { ms }));
        *self = TimedJournal { entries, last: ms };
    }
}
