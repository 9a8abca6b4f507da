//! The far end of a job's connections, as a world in memory runs it.
ghost use Rattle.std.specs.Prelude.{◌≡◌, ◌<◌, ◌≤◌, ◌^◌, ℕ, ℤ, Bool, List, Option, length, IfOk};
ghost use Rattle.world.specs.declared.chan.Chan.{Chan};
ghost use Rattle.world.specs.Calls.{Call, Ticked, Accepted, Took, Gave, given_of, StandsAfter};
ghost use Rattle.world.specs.Kernel.{Given, Gives, is_something};

use crate::{Chan, Give};
use jtext::NoMemory;
use std::alloc::Global;

/// A kernel in memory. Moments are milliseconds, below 2^47, and none may be before one that was
/// handed in.
pub trait KernelSide: Drop {
    // The latest moment that was handed in, or 0.
    ghost latest: { Self → ℕ };

    // Whether it takes up a connection to a channel at a moment.
    ghost accepts: { Self → Chan → ℕ → Bool };

    // What it hands out on a channel at a moment into a buffer of some length.
    ghost gives: { Self → Chan → ℕ → ℕ → Given };

    // The status with which it has ended by a moment.
    ghost exits: { Self → ℕ → Option ℤ };

    // For which lists of calls, the newest first, it stands.
    ghost stands: { Self → List Call → Type 0 };

    /// Brings the kernel to this moment.
    fn tick(&mut self, alloc: Global, now: u64) -> Result<(), NoMemory>
        requires bound { now < 2 ^ 47 }
        requires later { latest self.old ≤ now }
        ensures moment { latest self.new ≡ now }
        ensures stands { IfOk result (λ _.
            StandsAfter (stands self.old) (stands self.new) (Ticked now)) };

    /// Takes up a connection to a channel, or turns it away.
    fn accept(&mut self, chan: Chan, now: u64) -> bool
        requires bound { now < 2 ^ 47 }
        requires later { latest self.old ≤ now }
        ensures moment { latest self.new ≡ now }
        ensures answer { result ≡ accepts self.old chan now }
        ensures stands { StandsAfter (stands self.old) (stands self.new)
            (Accepted chan now result) };

    /// Takes bytes that came on a channel.
    fn take(&mut self, alloc: Global, chan: Chan, now: u64, piece: &[u8]) -> Result<(), NoMemory>
        requires bound { now < 2 ^ 47 }
        requires later { latest self.old ≤ now }
        ensures moment { latest self.new ≡ now }
        ensures stands { IfOk result (λ _.
            StandsAfter (stands self.old) (stands self.new) (Took chan now piece.now)) };

    /// Hands out bytes of a channel, at most the length of the buffer.
    fn give(&mut self, chan: Chan, now: u64, buf: &mut [u8]) -> Give
        requires bound { now < 2 ^ 47 }
        requires later { latest self.old ≤ now }
        requires room { 0 < length buf.old }
        ensures moment { latest self.new ≡ now }
        ensures answer { Gives (gives self.old chan now (length buf.old)) result buf.new }
        ensures stands { StandsAfter (stands self.old) (stands self.new)
            (Gave chan now (length buf.old) (given_of result buf.new)) };

    /// Whether `give` would answer other than `Nothing`, with any buffer.
    fn ready(&self, chan: Chan, now: u64) -> bool
        requires bound { now < 2 ^ 47 }
        requires later { latest self.now ≤ now }
        ensures { (room : ℕ) → 0 < room →
            result ≡ is_something (gives self.now chan now room) };

    /// The exit status, where the kernel has ended by this moment.
    fn exited(&self, now: u64) -> Option<i32>
        requires bound { now < 2 ^ 47 }
        requires later { latest self.now ≤ now }
        ensures { result ≡ exits self.now now };
}
