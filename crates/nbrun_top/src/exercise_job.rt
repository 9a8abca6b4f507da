//! The run of an exercise.
ghost use Rattle.std.specs.Prelude.{◌≡◌, ◌≤◌, ◌∷◌, [], IfOk, OnOk, Some, true};
ghost use Rattle.batch_run.specs.Batch.{Makes, LeavesOthers};
ghost use Rattle.save_course.specs.Course.{IsRested};
ghost use Rattle.world.specs.Moments.{Told};
ghost use Rattle.nbrun_top.specs.Exercise as spec;
ghost use Rattle.world_mem.specs.Folder.{file_at};
ghost use Rattle.world_mem.specs.Store.{files_of};
ghost use Rattle.nbrun_top.specs.ExerciseNumbers.{AreNumbers};
ghost use Rattle.nbrun_top.specs.ExerciseRun.{HasRun, IsTally, IsWhole};

use crate::exercise_ask::{OUTPUT, usual_ask};
use crate::exercise_numbers::numbers_in_file;
use crate::exercise_opening::exercise_world;
use crate::tally::Tally;
use batch_run::{Limits, run_jobs};
use job_end::Answer;
use jtext::{NoMemory, Text};
use std::alloc::Global;
use toy_core::Toy;
use words::Asks;
use world::World;
use world_mem::MemWorld;

/// The most waits of an exercise.
const MOST_TURNS: u64 = 1_000_000;

/// Opens the world of an exercise of `n` cells and runs its job there with at most that many waits,
/// and never with more than a million.
pub(crate) fn run_generated(alloc: Global, n: u32, turns: u64) -> Result<Tally, NoMemory>
    requires few { n ≤ 200 }
    ensures { IfOk result (IsTally n) }
{
    let mut v = exercise_world(alloc, n)?;
    exercise(alloc, n, turns.min(MOST_TURNS), &mut v)
}

/// Runs the job of an exercise of `n` cells over its world with at most that many waits, and counts
/// what it saved. `NoMemory` also where memory was refused to the world.
pub fn exercise(alloc: Global, n: u32, turns: u64, v: &mut MemWorld<Toy>) -> Result<Tally, NoMemory>
    requires opened { spec.IsOpened n v.old.near }
    ensures { IfOk result (HasRun v.new.near) }
{
    match answer_of_run(alloc, turns, v) {
        Ok(answer) => tally(alloc, answer, v),
        Err(refused) => Err(refused),
    }
}

// The tally of a run that ended with this answer.
fn tally(alloc: Global, answer: Answer, v: &MemWorld<Toy>) -> Result<Tally, NoMemory>
    ensures answer { IfOk result (λ t. t.answer ≡ answer) }
    ensures whole { OnOk result (IsWhole v.now.near) }
    ensures numbers { IfOk result (λ t. AreNumbers
        (file_at spec.output (files_of v.now.near.store)) t.cells t.outputs) }
{
    if !is_whole(v) {
        return Err(NoMemory);
    }
    let path = Text::of(alloc, OUTPUT)?;
    let ask = usual_ask(alloc)?;
    let (cells, outputs) = numbers_in_file(alloc, &ask, v.file(&path))?;
    Ok(Tally {
        cells,
        outputs,
        answer,
    })
}

// Whether the journal is told, and no memory was refused to the world.
fn is_whole(v: &MemWorld<Toy>) -> bool
    ensures { result ≡ true → IsWhole v.now.near }
{
    match v.journal() {
        Some(_) => v.starved() == 0,
        None => false,
    }
}

// How the job ends that is run over a world with so many waits.
fn answer_of_run<W: World>(alloc: Global, turns: u64, w: &mut W) -> Result<Answer, NoMemory>
    ensures job { IfOk result (λ answer. Told (W.journal w.old) (W.journal w.new)
        (λ before after. IsRested spec.output before →
        Makes 0 spec.ask (Some answer) (W.counts w.old) (W.counts w.new) before after)) }
    ensures others { IfOk result (λ answer.
        Told (W.journal w.old) (W.journal w.new) (LeavesOthers (spec.ask ∷ []))) }
{
    let ask = usual_ask(alloc)?;
    let mut asks = Asks::new(alloc);
    asks.push(ask)?;
    let here = Text::of(alloc, "/")?;
    let mut answers = run_jobs(alloc, w, asks, 0, &Limits { turns, here })?;
    Ok(answers.take(0))
}
