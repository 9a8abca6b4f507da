//! Runs that execute notebooks.
ghost use Rattle.std.specs.Prelude.{◌≡◌, ◌⊎◌, ◌≤◌, length, List as Seq, [], ℕ};
ghost use Rattle.std.specs.List.{AllByRecursion};
ghost use Rattle.words.specs.Runnable.{IsRunnable};
ghost use Rattle.world.specs.Told.{Between};
ghost use Rattle.said_lines.specs.Between.{FromStart, SayRose, SayFailed};
ghost use Rattle.batch_run.specs.Batch.{IsClean, numbered};
ghost use Rattle.nbrun_top.specs.Asked.{IsExecuted, IsBatch};
ghost use Rattle.nbrun_top.specs.Executed.{Executed, Runs, IsBare, IsCounted, AreApart};
ghost use Rattle.nbrun_top.specs.Executed.{WaitsAtMost};
ghost use Rattle.said_lines.specs.Speech.{Says};
ghost use Rattle.nbrun_top.specs.declared.end.End.TheVariants as ending;
ghost use Rattle.nbrun_top.specs.Lines.{all_lines};
ghost use Rattle.world.specs.Counts.{SayCause};

use crate::jobs_file::asks_in;
use crate::status::{first_fault, unless_not_said};
use batch_run::{Limits, run_jobs};
use jtext::{NoMemory, Text};
use said_lines::say;
use std::alloc::Global;
use words::{Ask, Asks};
use world::{Say, World};

/// The status where memory was refused.
const NO_MEMORY: u8 = 12;

/// Runs this job alone, and answers the exit status.
pub(crate) fn run_one<W: World>(alloc: Global, ask: Ask, limits: &Limits, w: &mut W) -> u8
    requires { IsRunnable ask }
    ensures executed { (words : Seq (Seq ℕ)) → IsExecuted words ask →
        FromStart W.journal w.old w.new (Executed words limits.now.here
        (SayRose W.counts w.old w.new) (SayFailed W.counts w.new) result) }
    ensures counted { IsCounted limits.now.turns (W.counts w.old) (W.counts w.new) result }
    ensures waits { WaitsAtMost W.counts w.old w.new limits.now.turns }
    ensures heard { result ≡ 0 → SayRose W.counts w.old w.new → ⊥ }
{
    let mut asks = Asks::new(alloc);
    match asks.push(ask) {
        Ok(()) => run_all(alloc, asks, limits, w),
        Err(NoMemory) => say_no_memory(w),
    }
}

/// Runs the jobs of this file, and answers the exit status.
pub(crate) fn run_file<W: World>(
    alloc: Global,
    file: &Text,
    common: &Ask,
    limits: &Limits,
    w: &mut W,
) -> u8
    requires { IsRunnable common.now }
    ensures executed { (words : Seq (Seq ℕ)) → IsBatch words file.now common.now →
        FromStart W.journal w.old w.new (Executed words limits.now.here
        (SayRose W.counts w.old w.new) (SayFailed W.counts w.new) result) }
    ensures counted { IsCounted limits.now.turns (W.counts w.old) (W.counts w.new) result }
    ensures waits { WaitsAtMost W.counts w.old w.new limits.now.turns }
    ensures heard { result ≡ 0 → SayRose W.counts w.old w.new → ⊥ }
{
    match asks_in(alloc, file, common, w) {
        Ok(asks) => run_all(alloc, asks, limits, w),
        Err(answer) => {
            say(w, answer.lines());
            answer.end.code()
        }
    }
}

// The jobs side by side. Their lines are said by then.
fn run_all<W: World>(alloc: Global, asks: Asks, limits: &Limits, w: &mut W) -> u8
    requires some { 1 ≤ length asks }
    requires few { length asks ≤ 16 }
    requires runnable { AllByRecursion IsRunnable asks }
    ensures runs { Between W.journal w.old w.new (λ before after. IsBare before →
        IsClean (numbered 0 asks) before → AreApart asks → Runs asks limits.now.here
        (SayRose W.counts w.old w.new) (SayFailed W.counts w.new) result before after) }
    ensures counted { IsCounted limits.now.turns (W.counts w.old) (W.counts w.new) result }
    ensures waits { WaitsAtMost W.counts w.old w.new limits.now.turns }
    ensures heard { result ≡ 0 → SayRose W.counts w.old w.new → ⊥ }
{
    let faults = w.say_faults();
    match run_jobs(alloc, w, asks, 0, limits) {
        Ok(answers) => unless_not_said(w, faults, first_fault(answers.as_slice())),
        Err(NoMemory) => say_no_memory(w),
    }
}

/// Says that memory was refused, and answers the exit status.
pub(crate) fn say_no_memory<W: Say>(w: &mut W) -> u8
    ensures says { Between W.journal w.old w.new
        (Says (all_lines [] [] ending.NoMemory) (SayFailed W.counts w.new)) }
    ensures counts { SayCause (W.counts w.old) (W.counts w.new) ⊥ }
    ensures status { result ≡ 12 }
{
    say(w, b"nbrun: no memory\n");
    NO_MEMORY
}
