//! A kernel that does nothing.
ghost use Rattle.std.specs.Prelude.{◌≡◌, false, None};
ghost use Rattle.world.specs.Kernel.{Waits};
ghost use Rattle.world_mem.specs.Null.{newest_moment};

use jtext::NoMemory;
use std::alloc::Global;
use world::{Chan, Give, KernelSide};

/// A kernel that takes up no connection, hands out nothing and never ends.
#[derive(Drop)]
pub struct NullKernel {
    latest: u64,
}

impl NullKernel {
    /// A kernel to which no moment was handed in.
    pub fn new() -> NullKernel
        ensures { result.latest ≡ 0 }
    {
        NullKernel { latest: 0 }
    }
}

impl KernelSide for NullKernel {
    ghost latest = { λ k. k.latest };

    ghost accepts = { λ k chan now. false };

    ghost gives = { λ k chan now room. Waits };

    ghost exits = { λ k now. None };

    ghost stands = { λ k calls. newest_moment calls ≡ k.latest };

    fn tick(&mut self, _alloc: Global, now: u64) -> Result<(), NoMemory> {
        self.latest = now;
        Ok(())
    }

    fn accept(&mut self, _chan: Chan, now: u64) -> bool {
        self.latest = now;
        false
    }

    fn take(&mut self, _: Global, _chan: Chan, now: u64, _piece: &[u8]) -> Result<(), NoMemory> {
        self.latest = now;
        Ok(())
    }

    fn give(&mut self, _chan: Chan, now: u64, _buf: &mut [u8]) -> Give {
        self.latest = now;
        Give::Nothing
    }

    fn ready(&self, _chan: Chan, _now: u64) -> bool {
        false
    }

    fn exited(&self, _now: u64) -> Option<i32> {
        None
    }
}
