//! The bytes that were queued on one connection and not taken yet.
ghost use Rattle.std.specs.Prelude.{[], ◌≡◌, ◌+◌, ◌≤◌, ◌<◌, ◌^◌, ◌++◌, ◌↔◌, length, drop, OnOk, OnErr, IsTrue};

use jtext::{Bytes, NoMemory};
use std::alloc::Global;
use std::marker::Model;

/// The bytes that were queued on one connection and not taken yet, and how many were taken.
#[derive(Drop)]
pub struct Queue {
    /// Bytes that were queued, of which the first `from` were taken.
    bytes: Bytes,
    from: usize,
    taken: u64,
}

impl Model for Queue {
    ghost use Rattle.std.specs.Prelude.{◌+◌, ◌-◌, ◌≤◌, ◌<◌, ◌^◌, length, drop};
    ghost use Rattle.ready_loop.specs.Queues.{Held};

    ghost Value = { Held };

    ghost view = { λ q. record { rest = drop q.from q.bytes; taken = q.taken } };

    ghost invariant = { λ q. (q.from ≤ length q.bytes) × (q.from ≤ q.taken)
        × (q.taken + (length q.bytes - q.from) < 2 ^ 64) };
}

impl Queue {
    /// Nothing queued, nothing taken. It takes no memory yet.
    pub fn new(alloc: Global) -> Queue
        ensures { result ≡ record { rest = []; taken = 0 } }
    {
        Queue {
            bytes: Bytes::new(alloc),
            from: 0,
            taken: 0,
        }
    }

    /// What was not taken yet.
    pub fn rest(&self) -> &[u8]
        ensures { result.now ≡ self.now.rest }
    {
        let bytes = self.bytes.bytes();
        &bytes[self.from..]
    }

    /// How many bytes were taken.
    pub fn taken(&self) -> u64
        ensures { result ≡ self.now.taken }
    {
        self.taken
    }

    /// Whether all that was queued was taken.
    pub fn is_empty(&self) -> bool
        ensures { IsTrue result ↔ (self.now.rest ≡ []) }
    {
        self.rest().is_empty()
    }

    /// Puts bytes behind those that are queued. All bytes of one connection are fewer than 2^64:
    /// further ones are refused as if there were no memory for them.
    pub fn push(&mut self, more: Bytes) -> Result<(), NoMemory>
        ensures ok { OnOk result (self.new
            ≡ record { rest = self.old.rest ++ more; taken = self.old.taken }) }
        ensures err { OnErr result (self.new ≡ self.old) }
    {
        let queued = (self.bytes.len() - self.from) as u64;
        let Some(room) = (u64::MAX - self.taken).checked_sub(queued) else {
            return Err(NoMemory);
        };
        if room < more.len() as u64 {
            return Err(NoMemory);
        }
        if queued == 0 {
            self.bytes = more;
            self.from = 0;
            return Ok(());
        }
        self.bytes.add(more.bytes())
    }

    /// Takes off so many bytes, which stay where they are until all are taken.
    pub fn take(&mut self, n: usize)
        requires { n ≤ length self.old.rest }
        ensures { self.new
            ≡ record { rest = drop n self.old.rest; taken = self.old.taken + n } }
    {
        self.from += n;
        self.taken += n as u64;
    }
}
