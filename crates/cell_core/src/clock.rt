//! What was read of the clock.
use crate::Event;

/// What was read of the clock, in milliseconds since 1970-01-01 UTC.
#[derive(Clone, Copy, Debug, Drop, PartialEq, Eq)]
pub enum Clock {
    /// Nothing yet.
    Unread,
    /// The child's start alone.
    Started(u64),
    /// An entry of a turn, the last.
    Turned(u64),
}

impl Clock {
    ghost use Rattle.std.specs.Prelude.{◌≡◌};
    ghost use Rattle.cell_core.specs.Holds.{now_of as now_by, is_past as past_by, read_again, clock_after};

    /// The last entry, 0 before the first.
    pub(crate) fn now(self) -> u64
        ensures { result ≡ now_by self }
    {
        match self {
            Clock::Unread => 0,
            Clock::Started(now) => now,
            Clock::Turned(now) => now,
        }
    }

    /// The clock after one more entry.
    pub(crate) fn read(self, now: u64) -> Clock
        ensures { result ≡ read_again self now }
    {
        match self {
            Clock::Unread => Clock::Started(now),
            Clock::Started(_) | Clock::Turned(_) => Clock::Turned(now),
        }
    }

    /// The clock after an event.
    pub(crate) fn after(self, e: Event) -> Clock
        ensures { result ≡ clock_after self e }
    {
        match e {
            Event::Moment(now) => self.read(now),
            _ => self,
        }
    }

    /// Whether a turn read it at or past the deadline.
    pub(crate) fn is_past(self, due: Option<u64>) -> bool
        ensures { result ≡ past_by self due }
    {
        match (self, due) {
            (Clock::Turned(now), Some(due)) => due <= now,
            _ => false,
        }
    }
}
