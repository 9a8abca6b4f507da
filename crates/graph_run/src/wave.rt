//! The waves, one after the other.
ghost use Rattle.std.specs.Prelude.{◌≡◌, ◌≤◌, ◌<◌, ◌+◌, ℕ, IfOk, OnOk, length};
ghost use Rattle.std.specs.List.{AllByRecursion};
ghost use Rattle.job_graph.specs.Waves.{job_count};
ghost use Rattle.words.specs.Runnable.{IsRunnable};
ghost use Rattle.world.specs.Counts.{Counts, CountsGrow};
ghost use Rattle.world.specs.Told.{Between};
ghost use Rattle.batch_run.specs.Batch.{AreEnds, EndSpent};
ghost use Rattle.graph_run.specs.Ran.{AreCaused};
ghost use Rattle.graph_run.specs.Waves as spec;

use crate::Workflow;
use crate::standing::Standing;
use crate::tested::{Tested, test_wave};
use batch_run::{Limits, run_jobs};
use job_end::Answer;
use jtext::{List, NoMemory};
use said_lines::say;
use std::alloc::Global;
use words::Asks;
use world::World;

/// Runs the waves one after the other, and says how each job ended.
pub(crate) fn run_waves<W: World>(
    alloc: Global,
    w: &mut W,
    flow: &Workflow,
    limits: &Limits,
) -> Result<Standing, NoMemory>
    requires few { job_count flow.now.waves ≤ 16 }
    requires jobs { AllByRecursion (AllByRecursion (λ job. job < length flow.now.asks))
        flow.now.waves }
    requires runnable { AllByRecursion IsRunnable flow.now.asks }
    ensures ran { Between W.journal w.old w.new (λ before after.
        spec.RunsAll flow.now limits.now.here limits.now.turns (W.counts w.old) before
        result (W.counts w.new) after) }
    ensures caused { IfOk result (λ s. AreCaused ((W.counts w.old).waits + limits.now.turns)
        (W.counts w.old) (W.counts w.new) s.ended) }
    ensures counts { CountsGrow (W.counts w.old) (W.counts w.new) }
    ensures waits { (W.counts w.new).waits ≤ (W.counts w.old).waits + limits.now.turns }
{
    let from = w.waits();
    let mut standing = Standing::new(alloc);
    let waves = flow.waves.as_slice();
    for wave in waves {
        let left = left_of(alloc, limits, w.waits() - from)?;
        run_wave(alloc, w, flow, &left, wave.as_slice(), &mut standing)?;
    }
    Ok(standing)
}

// What is left of the limits after so many waits.
fn left_of(alloc: Global, limits: &Limits, waits: u64) -> Result<Limits, NoMemory>
    requires { waits ≤ limits.now.turns }
    ensures turns { IfOk result (λ r. r.turns + waits ≡ limits.now.turns) }
    ensures here { IfOk result (λ r. r.here ≡ limits.now.here) }
{
    Ok(Limits {
        turns: limits.turns - waits,
        here: limits.here.copy(alloc)?,
    })
}

// Tests the jobs of a wave, says which of them aren't run, and runs the others.
fn run_wave<W: World>(
    alloc: Global,
    w: &mut W,
    flow: &Workflow,
    limits: &Limits,
    wave: &[u32],
    standing: &mut Standing,
) -> Result<(), NoMemory>
    requires few { standing.old.ran + length wave.now ≤ 16 }
    requires jobs { AllByRecursion (λ job. job < length flow.now.asks) wave.now }
    requires runnable { AllByRecursion IsRunnable flow.now.asks }
    ensures made { Between W.journal w.old w.new (λ before after.
        spec.MakesWave flow.now limits.now.here limits.now.turns wave.now standing.old before
        result standing.new (W.counts w.new) after) }
    ensures ran { standing.new.ran ≤ standing.old.ran + length wave.now }
    ensures caused { (most : ℕ) (from : Counts) →
        most ≡ (W.counts w.old).waits + limits.now.turns → CountsGrow from (W.counts w.old) →
        AreCaused most from (W.counts w.old) standing.old.ended →
        OnOk result (AreCaused most from (W.counts w.new) standing.new.ended) }
    ensures counts { CountsGrow (W.counts w.old) (W.counts w.new) }
    ensures waits { (W.counts w.new).waits ≤ (W.counts w.old).waits + limits.now.turns }
{
    match test_wave(alloc, w, flow, standing.ended.as_slice(), wave) {
        Ok(tested) => {
            say(w, tested.lines.bytes());
            run_tested(alloc, w, limits, tested, standing)
        }
        Err(refused) => Err(refused),
    }
}

// Runs the jobs that passed their tests side by side, where there are any.
fn run_tested<W: World>(
    alloc: Global,
    w: &mut W,
    limits: &Limits,
    tested: Tested,
    standing: &mut Standing,
) -> Result<(), NoMemory>
    requires few { standing.old.ran + length tested.asks ≤ 16 }
    requires runnable { AllByRecursion IsRunnable tested.asks }
    ensures made { Between W.journal w.old w.new (λ before after.
        spec.MakesTested tested limits.now.here limits.now.turns standing.old (W.counts w.old)
        before result standing.new (W.counts w.new) after) }
    ensures ran { standing.new.ran ≤ standing.old.ran + length tested.asks }
    ensures caused { (most : ℕ) (from : Counts) →
        most ≡ (W.counts w.old).waits + limits.now.turns → CountsGrow from (W.counts w.old) →
        AreCaused most from (W.counts w.old) standing.old.ended →
        AreCaused most from (W.counts w.old) tested.refused →
        OnOk result (AreCaused most from (W.counts w.new) standing.new.ended) }
    ensures counts { CountsGrow (W.counts w.old) (W.counts w.new) }
    ensures waits { (W.counts w.new).waits ≤ (W.counts w.old).waits + limits.now.turns }
{
    let Tested {
        jobs,
        asks,
        refused,
        lines: _,
    } = tested;
    standing.add(refused.as_slice())?;
    if asks.is_empty() {
        return Ok(());
    }
    let first = standing.ran;
    let more = asks.len();
    match run_numbered(alloc, w, asks, first as u8, limits) {
        Ok(answers) => {
            standing.ran = first + more;
            standing.add_answers(jobs.as_slice(), answers.as_slice())
        }
        Err(refused) => Err(refused),
    }
}

// Runs these jobs side by side, by their numbers from the first on.
fn run_numbered<W: World>(
    alloc: Global,
    w: &mut W,
    asks: Asks,
    first: u8,
    limits: &Limits,
) -> Result<List<Answer>, NoMemory>
    requires few { first + length asks ≤ 16 }
    requires runnable { AllByRecursion IsRunnable asks }
    ensures ran { Between W.journal w.old w.new (spec.RanJobs asks first limits.now.turns
        limits.now.here result (W.counts w.old) (W.counts w.new)) }
    ensures one_each { IfOk result (λ answers. length answers ≡ length asks) }
    ensures ends { IfOk result (AreEnds asks (W.counts w.old) (W.counts w.new)) }
    ensures spent { IfOk result
        (EndSpent limits.now.turns (W.counts w.old) (W.counts w.new)) }
    ensures counts { CountsGrow (W.counts w.old) (W.counts w.new) }
    ensures waits { (W.counts w.new).waits ≤ (W.counts w.old).waits + limits.now.turns }
{
    run_jobs(alloc, w, asks, first, limits)
}
