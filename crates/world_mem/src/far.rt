//! The far end of a world in memory: its kernels and its clock.
ghost use Rattle.std.specs.Prelude.{◌≡◌, ◌<◌, ◌≤◌, ◌+◌, ◌-◌, ◌^◌, All, IfOk, None, OnErr, OnOk};
ghost use Rattle.std.specs.Prelude.{false, is_some, length, min, replicate, slice_get, slice_set};
ghost use Rattle.std.specs.Prelude.{true, if◌then◌else◌};
ghost use Rattle.world.specs.Calls.{Accepted, Gave, Ticked, Took, given_of, StandsAfter};
ghost use Rattle.world.specs.Kernel.{Gives, Over};
ghost use Rattle.world_mem.specs.Far.{at_job, is_ready, Serves, Ticks};

use jtext::{List, NoMemory};
use std::alloc::Global;
use world::{Conn, Give, KernelSide};

/// Kernels, the first for the first job.
pub type Kernels<K> = List<K>;

/// The kernels, which children were started and not ended since, and the clock, before which no
/// kernel is.
#[derive(Drop)]
pub(crate) struct Far<K: KernelSide> {
    kernels: Vec<K>,
    started: [bool; 16],
    clock: u64,
    ghost below: { clock < 2 ^ 47 },
    ghost behind: { All (λ k. K.latest k ≤ clock) kernels.items },
}

impl<K: KernelSide> Far<K> {
    /// These kernels, none of them started, at this moment.
    pub(crate) fn new(kernels: Kernels<K>, clock: u64) -> Far<K>
        requires below { clock < 2 ^ 47 }
        requires behind { All (λ k. K.latest k ≤ clock) kernels }
        ensures kernels { result.kernels.items ≡ kernels }
        ensures started { result.started ≡ replicate 16 false }
        ensures clock { result.clock ≡ clock }
    {
        let kernels = kernels.into_vec();
        Far {
            kernels,
            started: [false; 16],
            clock,
        }
    }

    /// The moment now.
    pub(crate) fn clock(&self) -> u64
        ensures bound { result < 2 ^ 47 }
        ensures is { result ≡ self.now.clock }
    {
        self.clock
    }

    /// Moves the clock on, at most to its last value.
    pub(crate) fn pass(&mut self, ms: u32)
        ensures kernels { self.new.kernels ≡ self.old.kernels }
        ensures started { self.new.started ≡ self.old.started }
        ensures clock { self.new.clock ≡ min (self.old.clock + ms) (2 ^ 47 - 1) }
    {
        self.clock = (self.clock + ms as u64).min((1 << 47) - 1);
    }

    /// Starts the child of a job, where it has a kernel.
    pub(crate) fn start(&mut self, job: u8) -> bool
        requires { job < 16 }
        ensures is { result ≡ is_some (slice_get self.old.kernels.items job) }
        ensures started { self.new.started
            ≡ (if result then slice_set self.old.started job true else self.old.started) }
        ensures kernels { self.new.kernels ≡ self.old.kernels }
        ensures clock { self.new.clock ≡ self.old.clock }
    {
        if job as usize >= self.kernels.len() {
            return false;
        }
        self.started[job as usize] = true;
        true
    }

    /// Ends the child of a job.
    pub(crate) fn end(&mut self, job: u8)
        requires { job < 16 }
        ensures started { self.new.started ≡ slice_set self.old.started job false }
        ensures kernels { self.new.kernels ≡ self.old.kernels }
        ensures clock { self.new.clock ≡ self.old.clock }
    {
        self.started[job as usize] = false;
    }

    /// Whether the kernel of a job takes up a connection: none does where there is no kernel.
    pub(crate) fn accept(&mut self, conn: Conn) -> bool
        ensures is { result ≡ at_job self.old.kernels.items conn.job false
            (λ k. K.accepts k conn.chan self.old.clock) }
        ensures kernels { Serves self.old.kernels.items self.new.kernels.items conn.job
            (λ before after. StandsAfter (K.stands before) (K.stands after)
            (Accepted conn.chan self.old.clock result)) }
        ensures started { self.new.started ≡ self.old.started }
        ensures clock { self.new.clock ≡ self.old.clock }
    {
        let clock = self.clock;
        let job = conn.job as usize;
        if job >= self.kernels.len() {
            return false;
        }
        self.kernels[job].accept(conn.chan, clock)
    }

    /// Hands the kernel of a job bytes that came on a connection. Where there is no kernel they
    /// are dropped.
    pub(crate) fn take(&mut self, alloc: Global, conn: Conn, piece: &[u8]) -> Result<(), NoMemory>
        ensures ok { IfOk result (λ _. Serves self.old.kernels.items self.new.kernels.items
            conn.job (λ before after. StandsAfter (K.stands before) (K.stands after)
            (Took conn.chan self.old.clock piece.now))) }
        ensures err { OnErr result (Serves self.old.kernels.items self.new.kernels.items
            conn.job (λ before after. Unit {0})) }
        ensures started { self.new.started ≡ self.old.started }
        ensures clock { self.new.clock ≡ self.old.clock }
    {
        let clock = self.clock;
        let job = conn.job as usize;
        if job >= self.kernels.len() {
            return Ok(());
        }
        self.kernels[job].take(alloc, conn.chan, clock, piece)
    }

    /// What the kernel of a job hands out on a connection: the end where there is no kernel.
    pub(crate) fn give(&mut self, conn: Conn, buf: &mut [u8]) -> Give
        requires { 0 < length buf.old }
        ensures is { Gives (at_job self.old.kernels.items conn.job Over
            (λ k. K.gives k conn.chan self.old.clock (length buf.old))) result buf.new }
        ensures kernels { Serves self.old.kernels.items self.new.kernels.items conn.job
            (λ before after. StandsAfter (K.stands before) (K.stands after)
            (Gave conn.chan self.old.clock (length buf.old) (given_of result buf.new))) }
        ensures started { self.new.started ≡ self.old.started }
        ensures clock { self.new.clock ≡ self.old.clock }
    {
        let clock = self.clock;
        let job = conn.job as usize;
        if job >= self.kernels.len() {
            return Give::Ended;
        }
        self.kernels[job].give(conn.chan, clock, buf)
    }

    /// Whether there is something to read on a connection.
    pub(crate) fn is_ready(&self, conn: Conn) -> bool
        ensures { result ≡ is_ready K.gives self.now.kernels.items self.now.clock conn }
    {
        match self.kernels.get(conn.job as usize) {
            Some(kernel) => kernel.ready(conn.chan, self.clock),
            None => false,
        }
    }

    /// The exit status of the kernel of a job, where it has ended.
    pub(crate) fn exited(&self, job: u8) -> Option<i32>
        ensures { result ≡ at_job self.now.kernels.items job None
            (λ k. K.exits k self.now.clock) }
    {
        self.kernels.get(job as usize)?.exited(self.clock)
    }

    /// Brings each kernel whose child is started to the moment now, or some of them where memory is
    /// refused.
    pub(crate) fn tick(&mut self, alloc: Global) -> Result<(), NoMemory>
        ensures ok { OnOk result (Ticks K.stands self.old.started self.old.clock
            self.old.kernels.items self.new.kernels.items) }
        ensures started { self.new.started ≡ self.old.started }
        ensures clock { self.new.clock ≡ self.old.clock }
    {
        for job in 0..16 {
            if self.started[job] {
                self.tick_job(alloc, job)?;
            }
        }
        Ok(())
    }

    // Brings the kernel of a job to the moment now.
    fn tick_job(&mut self, alloc: Global, job: usize) -> Result<(), NoMemory>
        ensures ok { IfOk result (λ _. Serves self.old.kernels.items self.new.kernels.items
            job (λ before after. StandsAfter (K.stands before) (K.stands after)
            (Ticked self.old.clock))) }
        ensures started { self.new.started ≡ self.old.started }
        ensures clock { self.new.clock ≡ self.old.clock }
    {
        let clock = self.clock;
        if job >= self.kernels.len() {
            return Ok(());
        }
        self.kernels[job].tick(alloc, clock)
    }
}
