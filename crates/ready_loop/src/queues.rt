//! The bytes queued on all connections.
ghost use Rattle.std.specs.Prelude.{[], ◌≡◌, ◌+◌, ◌≤◌, ◌<◌, ◌++◌, ◌↔◌, ℕ, length, drop, OnOk, OnErr, IfOk, IsTrue, slice_set, replicate};
ghost use Rattle.world.specs.Told.{PutSome};
ghost use Rattle.ready_loop.specs.Queues.{rest_at, taken_at, put_count};

use crate::queue::Queue;
use jtext::{Bytes, NoMemory};
use std::alloc::Global;
use std::marker::Model;
use world::Put;

/// The bytes that were queued on each connection and not taken yet, by places.
#[derive(Drop)]
pub struct Queues {
    all: Vec<Queue>,
}

impl Model for Queues {
    ghost use Rattle.std.specs.Prelude.{List, ◌≡◌, vec_len};
    ghost use Rattle.ready_loop.specs.Queues.{Held};

    ghost Value = { List Held };

    ghost view = { λ a. a.all.items };

    ghost invariant = { λ a. vec_len a.all ≡ 64 };
}

impl Queues {
    /// Nothing queued anywhere.
    pub fn new(alloc: Global) -> Result<Queues, NoMemory>
        ensures { IfOk result (λ queues. queues ≡ replicate 64 (record { rest = []; taken = 0 })) }
    {
        let mut all = Vec::with_capacity(alloc, 64)?;
        for _ in 0..64usize {
            all.push(Queue::new(alloc))?;
        }
        Ok(Queues { all })
    }

    /// What was not taken yet at a place.
    pub fn rest(&self, place: usize) -> &[u8]
        requires { place < 64 }
        ensures { result.now ≡ rest_at self.now place }
    {
        self.all[place].rest()
    }

    /// Whether all that was queued at a place was taken.
    pub fn is_empty(&self, place: usize) -> bool
        requires { place < 64 }
        ensures { IsTrue result ↔ (rest_at self.now place ≡ []) }
    {
        self.all[place].is_empty()
    }

    /// How many bytes were taken at a place.
    pub fn taken(&self, place: usize) -> u64
        requires { place < 64 }
        ensures { result ≡ taken_at self.now place }
    {
        self.all[place].taken()
    }

    /// Puts bytes behind those that are queued at a place.
    pub fn push(&mut self, place: usize, more: Bytes) -> Result<(), NoMemory>
        requires { place < 64 }
        ensures ok { OnOk result (self.new ≡ slice_set self.old place
            (record { rest = rest_at self.old place ++ more; taken = taken_at self.old place })) }
        ensures err { OnErr result (self.new ≡ self.old) }
        ensures size { length self.old ≡ 64 }
    {
        self.all[place].push(more)
    }

    /// Takes off what a write at a place took.
    pub fn take_off(&mut self, place: usize, put: Put)
        requires place { place < 64 }
        requires some { PutSome put (length (rest_at self.old place)) }
        ensures { self.new ≡ slice_set self.old place (record {
          rest = drop (put_count put) (rest_at self.old place);
          taken = taken_at self.old place + put_count put;
        }) }
    {
        match put {
            Put::Took(n) => self.all[place].take(n),
            Put::Stuck | Put::Ended | Put::Refused | Put::Failed => self.all[place].take(0),
        }
    }
}
