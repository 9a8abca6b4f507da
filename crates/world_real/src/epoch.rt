//! `Epoch`, the moment at which the clocks were first read.
ghost use Rattle.std.specs.Prelude.{◌≡◌};
ghost use Rattle.world_real.specs.Moments.{nanos_by};

use std::io;
use std::rt::Clock;
use std::time::{Duration, Instant};

/// What both clocks of the system said when they were first read.
#[derive(Clone, Copy)]
pub(crate) struct Epoch {
    // The time since 1970, by the clock that can be set.
    wall: Duration,
    // The same moment by the monotonic clock, which nobody can set.
    start: Instant,
}

impl Epoch {
    /// This moment.
    pub(crate) fn read<R: Clock>(clock: &R) -> io::Result<Epoch> {
        Ok(Epoch {
            wall: clock.since_1970()?,
            start: Instant::now(clock)?,
        })
    }

    /// The nanoseconds since 1970 at that moment of the monotonic clock, as though the other clock
    /// had not been set since; as far as 128 bits go.
    pub(crate) fn nanos_at(&self, now: Instant) -> u128
        ensures { result ≡ nanos_by self.now now }
    {
        let since = now.duration_since(self.start);
        self.wall.as_nanos().saturating_add(since.as_nanos())
    }
}
