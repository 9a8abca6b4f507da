//! What a kernel gave and no socket has taken yet.
ghost use Rattle.std.specs.Prelude.{◌≤◌, ◌<◌, ◌^◌};

use std::alloc::{AllocError, Global};
use world::{Chan, Give, KernelSide};

/// The most octets that are asked of a kernel at once.
const ROOM: usize = 65_536;

/// What a kernel gave and no socket has taken yet: the octets from one place to another.
#[derive(Drop)]
pub(crate) struct Held {
    octets: Vec<u8>,
    from: usize,
    to: usize,
}

impl Held {
    pub(crate) fn new(alloc: Global) -> Result<Held, AllocError> {
        let octets = Vec::from_elem(alloc, 0u8, ROOM)?;
        Ok(Held {
            octets,
            from: 0,
            to: 0,
        })
    }

    /// Whether nothing is held.
    pub(crate) fn is_empty(&self) -> bool {
        self.to <= self.from
    }

    /// What is held.
    pub(crate) fn octets(&self) -> &[u8] {
        match self.octets.as_slice().get(self.from..self.to) {
            Some(octets) => octets,
            None => &[],
        }
    }

    /// So many of them were taken.
    pub(crate) fn take(&mut self, count: usize) {
        self.from = self.from.saturating_add(count);
    }

    /// Lets go of what is held.
    pub(crate) fn clear(&mut self) {
        self.from = 0;
        self.to = 0;
    }

    /// Asks the kernel for more where nothing is held, and says what it answered.
    pub(crate) fn fill<K: KernelSide>(&mut self, kernel: &mut K, chan: Chan, now: u64) -> Give
        requires bound { now < 2 ^ 47 }
        requires later { K.latest kernel.old ≤ now }
        ensures { K.latest kernel.new ≤ now }
    {
        if !self.is_empty() {
            return Give::Bytes(1);
        }
        self.clear();
        let room = self.octets.as_mut_slice();
        if room.is_empty() {
            return Give::Nothing;
        }
        let given = kernel.give(chan, now, room);
        if let Give::Bytes(count) = given {
            self.to = count;
        }
        given
    }
}
