//! `Moment`, the clock of a world.
ghost use Rattle.std.specs.Prelude.{◌≡◌, ◌<◌, ◌≤◌, ◌^◌, Some, IfSome};
ghost use Rattle.world_real.specs.Moments.{moment_after};

use crate::epoch::Epoch;
use std::io;
use std::rt::Clock;
use std::time::Instant;

/// The latest moment of a world.
const LATEST: u128 = (1 << 47) - 1;

/// The last moment of a clock, in milliseconds since 1970-01-01 UTC, below 2^47. It goes by the
/// system's clock as it was first read and the time since: to set that clock changes nothing.
#[derive(Clone, Copy)]
pub struct Moment {
    ms: u64,
    // Where the clocks were read.
    epoch: Option<Epoch>,
    ghost bound: { ms < 2 ^ 47 },
}

impl Moment {
    /// The moment before the clock was read.
    pub fn start() -> Moment
        ensures { result.ms ≡ 0 }
    {
        Moment { ms: 0, epoch: None }
    }

    /// Its milliseconds.
    pub fn ms(&self) -> u64
        ensures is { result ≡ self.now.ms }
        ensures bound { result < 2 ^ 47 }
    {
        self.ms
    }

    /// Looks at the clock. A clock that can't be read leaves the moment as it is.
    pub fn look<R: Clock>(&mut self, clock: &R)
        ensures later { self.old.ms ≤ self.new.ms }
        // What the clock that can be set said is asked for once, and never again.
        ensures once { IfSome self.old.epoch (λ epoch. self.new.epoch ≡ Some epoch) }
    {
        if self.epoch.is_none() {
            self.epoch = Epoch::read(clock).ok();
        }
        if let Some(epoch) = self.epoch {
            self.advance(epoch, Instant::now(clock));
        }
    }

    /// Goes on to what the monotonic clock was read to be, counted from there, and never back.
    fn advance(&mut self, epoch: Epoch, reading: io::Result<Instant>)
        ensures is { self.new.ms ≡ moment_after epoch reading self.old.ms }
        ensures later { self.old.ms ≤ self.new.ms }
        ensures same { self.new.epoch ≡ self.old.epoch }
    {
        if let Ok(now) = reading {
            let ms = (epoch.nanos_at(now) / 1_000_000).min(LATEST) as u64;
            self.ms = self.ms.max(ms);
        }
    }
}
