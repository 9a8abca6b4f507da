//! What is said of an exercise.
ghost use Rattle.std.specs.Prelude.{◌≡◌, ◌≤◌, ◌++◌, codes, string_bytes, IfOk};
ghost use Rattle.std.specs.Fmt.{decimal};
ghost use Rattle.nbrun_top.specs.ExerciseLine as spec;

use crate::exercise_job::run_generated;
use crate::tally::Tally;
use job_end::Answer;
use jtext::{Bytes, NoMemory};
use said_lines::spoken_line;
use std::alloc::Global;

/// How an exercise of `n` cells ends, with at most that many waits: the exit status of its job, and
/// one line with its numbers.
pub(crate) fn outcome(alloc: Global, n: u32, turns: u64) -> Result<Answer, NoMemory>
    requires few { n ≤ 200 }
    ensures { IfOk result (spec.IsOutcome n) }
{
    let tally = run_generated(alloc, n, turns)?;
    let line = line(alloc, n, &tally)?;
    Ok(Answer {
        status: tally.answer.status,
        line,
    })
}

fn line(alloc: Global, n: u32, tally: &Tally) -> Result<Bytes, NoMemory>
    ensures { IfOk result (λ line. line ≡ spec.line n tally.now) }
{
    let of = format!(in alloc; "exercise {n}")?;
    let what = numbers(alloc, tally.cells, tally.outputs, tally.answer.status)?;
    spoken_line(alloc, of.as_str(), what.as_bytes())
}

fn numbers(alloc: Global, cells: u64, outputs: u64, status: u8) -> Result<String, NoMemory>
    ensures { IfOk result (λ s. string_bytes s ≡ spec.numbers cells outputs status) }
{
    Ok(format!(in alloc; "cells {cells} outputs {outputs} status {status}")?)
}
