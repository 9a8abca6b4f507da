//! A kernel that hands out bytes.
ghost use Rattle.std.specs.Prelude.{◌≡◌, ◌<◌, length, true};
ghost use Rattle.world.specs.Kernel.{Gives};
ghost use Rattle.samples.specs.Fount.{end_by, number_on, pour};

use jtext::NoMemory;
use std::alloc::Global;
use world::{Chan, Give, KernelSide};

/// A kernel that takes up every connection, hands out so many bytes 7 on each channel, and ends at a
/// moment or never.
#[derive(Drop)]
pub struct Fount {
    latest: u64,
    ends_ms: Option<u64>,
    shell: usize,
    control: usize,
    iopub: usize,
    heart: usize,
}

impl Fount {
    /// A kernel with so many bytes on shell and so many on each other channel, to which no moment was
    /// handed in, and which ends at that moment or never.
    pub fn new(shell: usize, others: usize, ends_ms: Option<u64>) -> Fount
        ensures { Fount.latest result ≡ 0 }
    {
        Fount {
            latest: 0,
            ends_ms,
            shell,
            control: others,
            iopub: others,
            heart: others,
        }
    }
}

impl KernelSide for Fount {
    ghost latest = { λ k. k.latest };

    ghost accepts = { λ k chan now. true };

    ghost gives = { λ k chan now room.
        pour (number_on chan k.shell k.control k.iopub k.heart) room };

    ghost exits = { λ k now. end_by k.ends_ms now };

    ghost stands = { λ k calls. Unit {0} };

    fn tick(&mut self, _alloc: Global, now: u64) -> Result<(), NoMemory> {
        self.latest = now;
        Ok(())
    }

    fn accept(&mut self, _chan: Chan, now: u64) -> bool {
        self.latest = now;
        true
    }

    fn take(&mut self, _: Global, _chan: Chan, now: u64, _piece: &[u8]) -> Result<(), NoMemory> {
        self.latest = now;
        Ok(())
    }

    fn give(&mut self, chan: Chan, now: u64, buf: &mut [u8]) -> Give {
        self.latest = now;
        match chan {
            Chan::Shell => pour(&mut self.shell, buf),
            Chan::Control => pour(&mut self.control, buf),
            Chan::Iopub => pour(&mut self.iopub, buf),
            Chan::Heart => pour(&mut self.heart, buf),
        }
    }

    fn ready(&self, chan: Chan, _now: u64) -> bool {
        match chan {
            Chan::Shell => self.shell != 0,
            Chan::Control => self.control != 0,
            Chan::Iopub => self.iopub != 0,
            Chan::Heart => self.heart != 0,
        }
    }

    fn exited(&self, now: u64) -> Option<i32> {
        match self.ends_ms {
            Some(end) if now >= end => Some(0),
            _ => None,
        }
    }
}

// Hands out as many bytes as are left and have room.
fn pour(left: &mut usize, buf: &mut [u8]) -> Give
    requires { 0 < length buf.old }
    ensures { Gives (pour left.old (length buf.old)) result buf.new }
{
    if *left == 0 {
        return Give::Nothing;
    }
    let size = (*left).min(buf.len());
    buf[..size].fill(7);
    *left -= size;
    Give::Bytes(size)
}
