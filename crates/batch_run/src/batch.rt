//! `run_jobs`, the jobs of a run.
ghost use Rattle.std.specs.Prelude.{◌≡◌, ◌<◌, ◌≤◌, ◌+◌, ◌-◌, IfOk, OnOk, List as Plain, Option as Maybe, length};
ghost use Rattle.std.specs.List.{AllByRecursion};
ghost use Rattle.ready_loop.specs.States.{IsDrained, IsSound, waits_left};
ghost use Rattle.said_lines.specs.Between.{SayFailed};
ghost use Rattle.words.specs.Runnable.{IsRunnable};
ghost use Rattle.world.specs.Told.{Between};
ghost use Rattle.world.specs.declared.entry.Entry.{Entry};
ghost use Rattle.world.specs.Counts.{Counts, CountsGrow};
ghost use Rattle.batch_run.specs.Batch.{AreEnds, AreSaid, CallsOfRun, EndSpent, EndsChildren, LeavesOthers};
ghost use Rattle.batch_run.specs.Batch.{MakesEach, numbered};
ghost use Rattle.batch_run.specs.Kept.{IsFreshFrom};
ghost use Rattle.batch_run.specs.Owed.{after};
ghost use Rattle.batch_run.specs.Owed as owed;
ghost use Rattle.batch_run.specs.Stands.{AllEnded, AllStand, EndedBelow, NoneOver, Outset, WaitingFrom};
ghost use Rattle.batch_run.specs.Stands.{more_waits, served_by};
ghost use Rattle.ready_loop.specs.History.{History};
ghost use Rattle.ready_loop.specs.Standing.{AllShut, StandsFor};
ghost use Rattle.batch_run.specs.Lines.{waits_of};

use crate::Limits;
use crate::running::Running;
use job_end::Answer;
use jtext::{List, NoMemory};
use std::alloc::Global;
use words::Asks;
use world::World;

/// Runs 1 to 16 jobs side by side to their ends, and says how each ended in the order of the ends.
/// One answer a job, in the order of the asks. Without memory each child that was started is ended.
/// The jobs have the numbers from `first` on, by which the world knows their connections, ports and
/// children: the numbers below are those of jobs that ran before in the same world.
pub fn run_jobs<W: World>(
    alloc: Global,
    w: &mut W,
    asks: Asks,
    first: u8,
    limits: &Limits,
) -> Result<List<Answer>, NoMemory>
    // There are 16 numbers; a jobs file has no more jobs.
    requires few { first + length asks ≤ 16 }
    requires asks { AllByRecursion IsRunnable asks }

    // What it makes of the output of each job, with the answer that it gives for it. 0, 1, 7, 8, 9,
    // 13 and 15 come only where there are events that stop such a job for that cause. Where all
    // connections were closed before, each job has ended by the journal with its answer. What was
    // saved, the cause and the line follow the kernel's messages in it.
    ensures jobs { Between W.journal w.old w.new
        (MakesEach first asks result (W.counts w.old) (W.counts w.new)) }
    // Each call is one of the loop or of one of the jobs: none reads or writes another file, starts
    // another program than the kernel that is asked for, or says another line.
    ensures calls { Between W.journal w.old w.new
        (CallsOfRun (numbered first asks) limits.now.here) }
    // In the end each child that was started has its end.
    ensures children { Between W.journal w.old w.new (EndsChildren (numbered first asks)) }
    // All other paths are left alone, and no count falls.
    ensures others { Between W.journal w.old w.new (LeavesOthers asks) }
    ensures counts { CountsGrow (W.counts w.old) (W.counts w.new) }
    // It waits at most so often as the limits have it.
    ensures waits { (W.counts w.new).waits ≤ (W.counts w.old).waits + limits.now.turns }
    // One answer a job.
    ensures one_each { IfOk result (λ answers. length answers ≡ length asks) }
    // Each is that of an end. 3, 6, 10 and 14 come only where a count of failed calls rose, 16 only
    // where it made all of its waits.
    ensures ends { IfOk result (AreEnds asks (W.counts w.old) (W.counts w.new)) }
    // The last line of each job was said.
    ensures said { IfOk result (λ answers. Between W.journal w.old w.new
        (AreSaid asks answers (SayFailed W.counts w.new))) }
    ensures spent { IfOk result
        (EndSpent limits.now.turns (W.counts w.old) (W.counts w.new)) }
{
    match Running::new(alloc, first as usize, asks.len(), limits.turns) {
        Ok(running) => answers_of(w, asks, first as usize, limits, running),
        Err(refused) => Err(refused),
    }
}

/// Runs these jobs, none of which has begun, by their numbers from the first on.
fn answers_of<W: World>(
    w: &mut W,
    asks: Asks,
    first: usize,
    limits: &Limits,
    running: Running,
) -> Result<List<Answer>, NoMemory>
    requires asks { AllByRecursion IsRunnable asks }
    requires size { length running.jobs.slots.items ≡ first + length asks }
    requires ended { EndedBelow first running.jobs.slots.items }
    requires waiting { WaitingFrom first running.jobs.slots.items }
    requires fresh { IsFreshFrom 0 running.lines.connections }
    requires drained { IsDrained running.lines.connections }
    requires sound { IsSound running.lines.connections }
    requires room { 0 < length running.buf.items }
    requires left { waits_of running.lines ≡ limits.now.turns }
    requires stands { (journal : Plain Entry) → AllShut journal →
        (h : History) × StandsFor running.lines.connections h journal }
    ensures jobs { Between W.journal w.old w.new
        (MakesEach first asks result (W.counts w.old) (W.counts w.new)) }
    ensures calls { Between W.journal w.old w.new
        (CallsOfRun (numbered first asks) limits.now.here) }
    ensures children { Between W.journal w.old w.new (EndsChildren (numbered first asks)) }
    ensures others { Between W.journal w.old w.new (LeavesOthers asks) }
    ensures counts { CountsGrow (W.counts w.old) (W.counts w.new) }
    ensures waits { (W.counts w.new).waits ≤ (W.counts w.old).waits + limits.now.turns }
    ensures one_each { IfOk result (λ answers. length answers ≡ length asks) }
    ensures ends { IfOk result (AreEnds asks (W.counts w.old) (W.counts w.new)) }
    ensures said { IfOk result (λ answers. Between W.journal w.old w.new
        (AreSaid asks answers (SayFailed W.counts w.new))) }
    ensures spent { IfOk result
        (EndSpent limits.now.turns (W.counts w.old) (W.counts w.new)) }
{
    let mut running = running;
    match carry_out(w, asks, first, limits, &mut running) {
        Ok(()) => running.into_answers(first),
        Err(refused) => {
            running.abandon(w);
            Err(refused)
        }
    }
}

/// Begins these jobs, and runs them to their ends.
fn carry_out<W: World>(
    w: &mut W,
    asks: Asks,
    first: usize,
    limits: &Limits,
    running: &mut Running,
) -> Result<(), NoMemory>
    requires asks { AllByRecursion IsRunnable asks }
    requires size { length running.old.jobs.slots.items ≡ first + length asks }
    requires waiting { WaitingFrom first running.old.jobs.slots.items }
    requires fresh { IsFreshFrom 0 running.old.lines.connections }
    requires drained { IsDrained running.old.lines.connections }
    requires sound { IsSound running.old.lines.connections }
    requires room { 0 < length running.old.buf.items }
    ensures ended { OnOk result (AllEnded running.new.jobs.slots.items) }
    ensures stands { (start : Maybe (Plain Entry)) (from : Outset) →
        from.here ≡ limits.now.here → from.waits + waits_of running.old.lines ≡ from.most →
        NoneOver running.old.jobs.slots.items → AllStand (numbered first asks) start
        (served_by (owed.begins first) running.old.lines.connections from)
        running.old.jobs.slots.items (W.journal w.old) (W.counts w.old) →
        AllStand (numbered first asks) start
        (served_by (after result owed.none) running.new.lines.connections
        (more_waits (waits_of running.old.lines - waits_of running.new.lines) from))
        running.new.jobs.slots.items (W.journal w.new) (W.counts w.new) }
{
    match begin_all(w, asks, first, limits, running) {
        Ok(()) => {
            running.read_clock(w.last());
            running.run(w)
        }
        Err(refused) => Err(refused),
    }
}

/// Begins these jobs, one after another, before any wait.
fn begin_all<W: World>(
    w: &mut W,
    asks: Asks,
    first: usize,
    limits: &Limits,
    running: &mut Running,
) -> Result<(), NoMemory>
    requires asks { AllByRecursion IsRunnable asks }
    requires size { length running.old.jobs.slots.items ≡ first + length asks }
    requires waiting { WaitingFrom first running.old.jobs.slots.items }
    requires fresh { IsFreshFrom 0 running.old.lines.connections }
    requires drained { IsDrained running.old.lines.connections }
    requires sound { IsSound running.old.lines.connections }
    ensures drained { OnOk result (IsDrained running.new.lines.connections) }
    ensures sound { OnOk result (IsSound running.new.lines.connections) }
    ensures waits { waits_left running.new.lines.connections ≡
        waits_left running.old.lines.connections }
    ensures buf { running.new.buf ≡ running.old.buf }
    ensures stands { (start : Maybe (Plain Entry)) (from : Outset) →
        from.here ≡ limits.now.here → AllStand (numbered first asks) start
        (served_by (owed.begins first) running.old.lines.connections from)
        running.old.jobs.slots.items (W.journal w.old) (W.counts w.old) →
        AllStand (numbered first asks) start
        (served_by (after result (owed.begins (first + length asks)))
        running.new.lines.connections from)
        running.new.jobs.slots.items (W.journal w.new) (W.counts w.new) }
    ensures over { OnOk result
        (NoneOver running.old.jobs.slots.items → NoneOver running.new.jobs.slots.items) }
    ensures size { length running.new.jobs.slots.items ≡ length running.old.jobs.slots.items }
{
    let mut number = first;
    for ask in asks.into_vec() {
        running.begin(w, number, ask, &limits.here)?;
        number += 1;
    }
    Ok(())
}
