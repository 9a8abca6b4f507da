//! The tests of the jobs of a wave, and what comes of them.
ghost use Rattle.std.specs.Prelude.{◌≡◌, ◌≤◌, ◌<◌, IfOk, OnOk, length, ℕ};
ghost use Rattle.std.specs.List.{AllByRecursion};
ghost use Rattle.words.specs.Runnable.{IsRunnable};
ghost use Rattle.world.specs.Counts.{DiskCause};
ghost use Rattle.world.specs.Moments.{Since};
ghost use Rattle.world.specs.Told.{Between};
ghost use Rattle.graph_run.specs.Ran.{AreCaused};
ghost use Rattle.graph_run.specs.declared.refusal.Refusal.TheVariants as refusal;
ghost use Rattle.graph_run.specs.Tests as spec;

use crate::lines::refusal_line;
use crate::testing::test;
use crate::{Ended, Refusal, Workflow};
use jtext::{Bytes, List, NoMemory};
use std::alloc::Global;
use words::{Ask, Asks};
use world::Disk;

/// What came of the tests of the jobs of a wave.
#[derive(Drop)]
pub(crate) struct Tested {
    /// The jobs that run.
    pub jobs: List<u32>,
    /// What is asked of each of them.
    pub asks: Asks,
    /// The jobs that don't.
    pub refused: List<Ended>,
    /// What is said of those.
    pub lines: Bytes,
}

impl Tested {
    /// Nothing, as long as no job was tested.
    fn new(alloc: Global) -> Tested
        ensures { result ≡ spec.none_tested }
    {
        Tested {
            jobs: List::new(alloc),
            asks: Asks::new(alloc),
            refused: List::new(alloc),
            lines: Bytes::new(alloc),
        }
    }

    /// This job runs.
    fn pass(&mut self, job: u32, ask: Ask) -> Result<(), NoMemory>
        ensures { OnOk result (self.new ≡ spec.one_passes self.old job ask) }
    {
        self.jobs.push(job)?;
        self.asks.push(ask)
    }

    /// This job doesn't.
    fn refuse(
        &mut self,
        alloc: Global,
        flow: &Workflow,
        job: u32,
        why: &Refusal,
    ) -> Result<(), NoMemory>
        ensures refused { OnOk result
            (self.new ≡ spec.one_is_refused flow.now self.old job why.now) }
        ensures memory { OnOk result (why.now ≡ refusal.NoMemory → ⊥) }
    {
        if let Refusal::NoMemory = why {
            return Err(NoMemory);
        }
        let line = refusal_line(alloc, flow.output_of(job as usize), why)?;
        self.lines.add(line.bytes())?;
        self.refused.push(Ended {
            job,
            status: why.status(),
        })
    }
}

/// Tests the jobs of a wave, one after the other, by those that have ended before.
pub(crate) fn test_wave<W: Disk>(
    alloc: Global,
    w: &mut W,
    flow: &Workflow,
    ended: &[Ended],
    wave: &[u32],
) -> Result<Tested, NoMemory>
    requires { AllByRecursion (λ job. job < length flow.now.asks) wave.now }
    ensures told { Between W.journal w.old w.new (λ before after.
        IfOk result (λ t. spec.TestsWave flow.now ended.now before wave.now t after)) }
    ensures reads { Between W.journal w.old w.new (Since (spec.IsTakeRead flow.now)) }
    ensures runnable { AllByRecursion IsRunnable flow.now.asks →
        IfOk result (λ t. AllByRecursion IsRunnable t.asks) }
    ensures few { IfOk result (λ t. length t.asks ≤ length wave.now) }
    ensures caused { (most : ℕ) → IfOk result (λ t.
        AreCaused most (W.counts w.old) (W.counts w.new) t.refused) }
    ensures counts { DiskCause (W.counts w.old) (W.counts w.new) ⊥ }
{
    let mut tested = Tested::new(alloc);
    for job in wave {
        match test(alloc, w, flow, ended, *job as usize) {
            Ok(ask) => tested.pass(*job, ask)?,
            Err(refusal) => tested.refuse(alloc, flow, *job, &refusal)?,
        }
    }
    Ok(tested)
}
