//! `Toy`, the far end of a job's connections.
ghost use Rattle.std.specs.Prelude.{◌≡◌, ◌↔◌, ◌<◌, ◌≤◌, ◌^◌, [], IfOk, IsErr, false, true};
ghost use Rattle.toy_core.specs.Dues.{KeepsDue};
ghost use Rattle.toy_core.specs.Toy as toy;

use crate::machine::Machine;
use jtext::{NoMemory, Text};
use std::alloc::Global;
use world::{Chan, Give, KernelSide};

/// A kernel of the toy language over the bytes of four connections. Moments are milliseconds, and
/// none may be before one that was handed in.
#[derive(Debug, Drop)]
pub struct Toy {
    alloc: Global,
    key: Text,
    machine: Machine,
    /// The latest moment that was handed in.
    latest: u64,
    /// Whether memory was wanted.
    starved: bool,
}

impl Toy {
    /// A kernel that signs under this key, and to which nothing has happened.
    pub fn new(alloc: Global, key: &Text) -> Result<Toy, NoMemory>
        ensures stands { IfOk result (λ made. toy.StandsFor made []) }
        ensures key { IfOk result (λ made. toy.key_of made ≡ key.now) }
        ensures latest { IfOk result (λ made. toy.latest_of made ≡ 0) }
        ensures fed { IfOk result (λ made. toy.is_starved made ≡ false) }
    {
        Ok(Toy {
            alloc,
            key: key.copy(alloc)?,
            machine: Machine::new(alloc)?,
            latest: 0,
            starved: false,
        })
    }
}

impl KernelSide for Toy {
    ghost use Rattle.std.specs.Prelude.{ℕ, length, Bool};
    ghost use Rattle.world.specs.Kernel.{Gives, is_something};
    ghost use Rattle.world.specs.Calls.{StandsAfter, Ticked, Accepted, Took, Gave, given_of};

    ghost latest = { toy.latest_of };

    ghost accepts = { toy.accepts };

    ghost gives = { toy.gives };

    ghost exits = { toy.exits };

    ghost stands = { toy.StandsFor };

    fn tick(&mut self, _alloc: Global, now: u64) -> Result<(), NoMemory>
        requires bound { now < 2 ^ 47 }
        requires later { toy.latest_of self.old ≤ now }
        ensures moment { toy.latest_of self.new ≡ now }
        ensures stands { IfOk result (λ _.
            StandsAfter (toy.StandsFor self.old) (toy.StandsFor self.new) (Ticked now)) }
        ensures still { toy.IsStill self.old self.new }
    {
        self.latest = now;
        Ok(())
    }

    fn accept(&mut self, chan: Chan, now: u64) -> bool
        requires bound { now < 2 ^ 47 }
        requires later { toy.latest_of self.old ≤ now }
        ensures moment { toy.latest_of self.new ≡ now }
        ensures answer { result ≡ toy.accepts self.old chan now }
        ensures stands { StandsAfter (toy.StandsFor self.old) (toy.StandsFor self.new)
            (Accepted chan now result) }
        ensures starved { toy.is_starved self.new ≡ toy.is_starved self.old }
    {
        self.latest = now;
        self.machine.accept(self.alloc, chan, now)
    }

    /// After want of memory each later call wants it too, and changes nothing of what is due.
    fn take(&mut self, alloc: Global, chan: Chan, now: u64, piece: &[u8]) -> Result<(), NoMemory>
        requires bound { now < 2 ^ 47 }
        requires later { toy.latest_of self.old ≤ now }
        ensures moment { toy.latest_of self.new ≡ now }
        ensures stands { IfOk result (λ _. StandsAfter (toy.StandsFor self.old)
            (toy.StandsFor self.new) (Took chan now piece.now)) }
        ensures refused { IsErr result ↔ (toy.is_starved self.new ≡ true) }
        ensures again { toy.is_starved self.old ≡ true →
            IsErr result × toy.IsStill self.old self.new }

        // What was due before stays due, also where memory is wanted here for the first time.
        ensures due { KeepsDue now self.old self.new }
    {
        self.latest = now;
        if self.starved {
            return Err(NoMemory);
        }
        match self.machine.take(alloc, now, &self.key, chan, piece) {
            Ok(()) => Ok(()),
            Err(refused) => {
                self.starved = true;
                Err(refused)
            }
        }
    }

    fn give(&mut self, chan: Chan, now: u64, buf: &mut [u8]) -> Give
        requires bound { now < 2 ^ 47 }
        requires later { toy.latest_of self.old ≤ now }
        requires room { 0 < length buf.old }
        ensures moment { toy.latest_of self.new ≡ now }
        ensures answer { Gives (toy.gives self.old chan now (length buf.old)) result buf.new }
        ensures stands { StandsAfter (toy.StandsFor self.old) (toy.StandsFor self.new)
            (Gave chan now (length buf.old) (given_of result buf.new)) }
        ensures starved { toy.is_starved self.new ≡ toy.is_starved self.old }
    {
        self.latest = now;
        self.machine.give(chan, now, buf)
    }

    fn ready(&self, chan: Chan, now: u64) -> bool {
        self.machine.is_ready(chan, now)
    }

    fn exited(&self, now: u64) -> Option<i32> {
        self.machine.kernel.agenda.end_by(now)
    }
}
