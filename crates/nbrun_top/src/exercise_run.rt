//! Runs that do the exercise.
ghost use Rattle.std.specs.Prelude.{◌≡◌, ◌≤◌};
ghost use Rattle.world.specs.Told.{Between};
ghost use Rattle.said_lines.specs.Between.{SayRose, SayFailed};
ghost use Rattle.nbrun_top.specs.Executed.{WaitsAtMost};
ghost use Rattle.nbrun_top.specs.Exercised.{Exercised};
ghost use Rattle.nbrun_top.specs.ExerciseLine.{IsOutcome};

use crate::execution::say_no_memory;
use crate::exercise_line::outcome;
use crate::status::unless_not_said;
use batch_run::Limits;
use jtext::NoMemory;
use said_lines::say;
use std::alloc::Global;
use world::Say;

/// Does the exercise of so many cells, says its line, and answers the exit status.
pub(crate) fn run_exercise<W: Say>(alloc: Global, cells: u32, limits: &Limits, w: &mut W) -> u8
    requires few { cells ≤ 200 }
    ensures exercised { Between W.journal w.old w.new (λ before after.
        Exercised (IsOutcome cells)
        (SayRose W.counts w.old w.new) (SayFailed W.counts w.new) before result after) }
    ensures waits { WaitsAtMost W.counts w.old w.new 0 }
    ensures heard { result ≡ 0 → SayRose W.counts w.old w.new → ⊥ }
{
    let faults = w.say_faults();
    match outcome(alloc, cells, limits.turns) {
        Ok(answer) => {
            say(w, answer.line.bytes());
            unless_not_said(w, faults, answer.status)
        }
        Err(NoMemory) => say_no_memory(w),
    }
}
