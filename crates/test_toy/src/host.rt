//! A kernel in memory with the moment that it stands at.
ghost use Rattle.std.specs.Prelude.{◌≡◌, ◌<◌, ◌≤◌, ◌^◌};

use jtext::{Bytes, NoMemory};
use std::alloc::Global;
use world::{Chan, Give, KernelSide};

/// The latest moment that there is.
const LAST: u64 = 140_737_488_355_327;

/// A kernel with the moment that it stands at.
#[derive(Drop)]
pub(crate) struct Host<K: KernelSide> {
    kernel: K,
    now: u64,
    ghost later: { K.latest kernel ≤ now },
    ghost bound: { now < 2 ^ 47 },
}

impl<K: KernelSide> Host<K> {
    /// A kernel to which nothing has happened.
    pub(crate) fn new(kernel: K) -> Host<K>
        requires { K.latest kernel ≡ 0 }
    {
        Host { kernel, now: 0 }
    }

    /// Time goes on to this moment.
    pub(crate) fn wait(&mut self, now: u64) {
        self.now = self.now.max(now.min(LAST));
    }

    /// Whether the kernel takes up a connection to a channel.
    pub(crate) fn accept(&mut self, chan: Chan) -> bool {
        let now = self.now;
        self.kernel.accept(chan, now)
    }

    /// Hands octets to the kernel.
    pub(crate) fn take(
        &mut self,
        alloc: Global,
        chan: Chan,
        octets: &[u8],
    ) -> Result<(), NoMemory> {
        let now = self.now;
        self.kernel.take(alloc, chan, now, octets)
    }

    /// Adds all octets that the kernel hands out now on a channel, and says what it answers then.
    pub(crate) fn octets(&mut self, chan: Chan, out: &mut Bytes) -> Result<Give, NoMemory> {
        let mut buf = [0u8; 7];
        for _ in 0..100_000u32 {
            let now = self.now;
            match self.kernel.give(chan, now, &mut buf) {
                Give::Bytes(count) => out.add(&buf[..count.min(7)])?,
                last => return Ok(last),
            }
        }
        Ok(Give::Nothing)
    }

    /// Whether the kernel has something for a channel, octets or the end.
    pub(crate) fn is_ready(&self, chan: Chan) -> bool {
        self.kernel.ready(chan, self.now)
    }

    /// The status with which the kernel has ended.
    pub(crate) fn exited(&self) -> Option<i32> {
        self.kernel.exited(self.now)
    }
}
