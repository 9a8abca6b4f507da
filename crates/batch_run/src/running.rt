//! `Running`, the jobs of a run and their connections.

use crate::jobs::Jobs;
use crate::lines::Lines;
use crate::wanted::Wanted;
use job_end::Answer;
use jtext::{List, NoMemory, Text};
use std::alloc::Global;
use words::Ask;
use world::World;

/// The most bytes of one read.
const PIECE: usize = 65_536;

/// The jobs of a run, and their connections.
#[derive(Drop)]
pub(crate) struct Running {
    pub jobs: Jobs,
    pub lines: Lines,
    pub buf: Vec<u8>,
}

impl Running {
    ghost use Rattle.std.specs.Prelude.{◌≡◌, ◌<◌, ◌≤◌, ◌+◌, ◌^◌, ℕ, suc, IfOk, IfSome, OnOk, length, true, false};
    ghost use Rattle.std.specs.Prelude.{List as Plain, Option as Maybe, Some, slice_get};
    ghost use Rattle.said_lines.specs.Between.{SayFailed};
    ghost use Rattle.ready_loop.specs.States.{IsDrained, IsSound, waits_left};
    ghost use Rattle.words.specs.Runnable.{IsRunnable};
    ghost use Rattle.batch_run.specs.Due.{is_slot_over};
    ghost use Rattle.batch_run.specs.Kept.{IsBroken, IsFreshFrom, IsKept, IsLeft, IsSoundBut};
    ghost use Rattle.batch_run.specs.Lines.{open_of, waits_of};
    ghost use Rattle.batch_run.specs.Owed.{Owed, after, may_wait, owed_to};
    ghost use Rattle.batch_run.specs.Owed as owed;
    ghost use Rattle.batch_run.specs.Stands.{AllStand, AllEnded, EndedBelow, IsCutOff, SameOver};
    ghost use Rattle.batch_run.specs.Stands.{KeepsLines, KeepsLinesIf, KeepsOthers, NoneOver};
    ghost use Rattle.batch_run.specs.Stands.{Outset, SaysEndOf, is_slot_running, served_by};
    ghost use Rattle.batch_run.specs.Stands.{WaitingFrom, answers_from};
    ghost use Rattle.batch_run.specs.Telling.{ReadsClocks};
    ghost use Rattle.job_run.specs.Run.{HasPorts};
    ghost use Rattle.job_turns.specs.OwedTo.{is_open};
    ghost use Rattle.ready_loop.specs.History.{History};
    ghost use Rattle.ready_loop.specs.Standing.{AllShut, StandsFor};
    ghost use Rattle.words.specs.declared.ask.Ask.{Ask as Asked};
    ghost use Rattle.world.specs.declared.entry.Entry.{Entry};

    /// So many jobs from the first number on, none of which has begun, and so many waits.
    pub(crate) fn new(
        alloc: Global,
        first: usize,
        count: usize,
        turns: u64,
    ) -> Result<Running, NoMemory>
        requires { first + count ≤ 16 }
        ensures count { IfOk result (λ r. length r.jobs.slots.items ≡ first + count) }
        ensures ended { IfOk result (λ r. EndedBelow first r.jobs.slots.items) }
        ensures waiting { IfOk result (λ r. WaitingFrom first r.jobs.slots.items) }
        ensures drained { IfOk result (λ r. IsDrained r.lines.connections) }
        ensures sound { IfOk result (λ r. IsSound r.lines.connections) }
        ensures fresh { IfOk result (λ r. IsFreshFrom 0 r.lines.connections) }
        ensures room { IfOk result (λ r. 0 < length r.buf.items) }
        ensures left { IfOk result (λ r. waits_of r.lines ≡ turns) }
        // The loop stands for each journal in which all connections were closed.
        ensures stands { IfOk result (λ r. (journal : Plain Entry) → AllShut journal →
            (h : History) × StandsFor r.lines.connections h journal) }
    {
        Ok(Running {
            jobs: Jobs::new(alloc, first, count)?,
            lines: Lines::new(alloc, turns)?,
            buf: Vec::from_elem(alloc, 0u8, PIECE)?,
        })
    }

    /// Begins a job, and its connections where it runs.
    pub(crate) fn begin<W: World>(
        &mut self,
        w: &mut W,
        number: usize,
        ask: Ask,
        here: &Text,
    ) -> Result<(), NoMemory>
        requires within { number < length self.old.jobs.slots.items }
        requires ask { IsRunnable ask }
        requires fresh { IsFreshFrom number self.old.lines.connections }
        requires sound { IsSound self.old.lines.connections }
        requires waiting { WaitingFrom number self.old.jobs.slots.items }
        ensures waiting { OnOk result (WaitingFrom (number + 1) self.new.jobs.slots.items) }
        ensures stands { (asks : ℕ → Maybe Asked) (start : Maybe (Plain Entry)) (from : Outset) →
            asks number ≡ Some ask → from.here ≡ here.now →
            AllStand asks start (served_by (owed.begins number) self.old.lines.connections from)
            self.old.jobs.slots.items (W.journal w.old) (W.counts w.old) →
            AllStand asks start (served_by (after result (owed.begins (suc number)))
            self.new.lines.connections from)
            self.new.jobs.slots.items (W.journal w.new) (W.counts w.new) }
        ensures over { OnOk result
            (NoneOver self.old.jobs.slots.items → NoneOver self.new.jobs.slots.items) }
        ensures size { length self.new.jobs.slots.items ≡ length self.old.jobs.slots.items }
        ensures fresh { OnOk result (IsFreshFrom (number + 1) self.new.lines.connections) }
        ensures sound { OnOk result (IsSound self.new.lines.connections) }
        ensures drained { IsDrained self.old.lines.connections →
            IsDrained self.new.lines.connections }
        ensures waits { waits_left self.new.lines.connections ≡
            waits_left self.old.lines.connections }
        ensures buf { self.new.buf ≡ self.old.buf }
    {
        match self.jobs.begin(w, number, ask, here) {
            Ok(Some(wanted)) => self.join(w, number, wanted),
            Ok(None) => Ok(()),
            Err(refused) => Err(refused),
        }
    }

    /// Begins the connections of a job that runs; where a call fails it is lost, and left.
    fn join<W: World>(&mut self, w: &mut W, number: usize, wanted: Wanted) -> Result<(), NoMemory>
        requires within { number < length self.old.jobs.slots.items }
        requires few { number < 16 }
        requires fresh { IsFreshFrom number self.old.lines.connections }
        requires sound { IsSound self.old.lines.connections }
        requires waiting { WaitingFrom (number + 1) self.old.jobs.slots.items }
        ensures waiting { WaitingFrom (number + 1) self.new.jobs.slots.items }
        ensures stands { (asks : ℕ → Maybe Asked) (start : Maybe (Plain Entry)) (from : Outset) →
            (from.clean ≡ true → HasPorts number wanted.ports (W.journal w.old)) →
            is_slot_running (slice_get self.old.jobs.slots.items number) ≡ true →
            AllStand asks start (served_by (owed.begins number) self.old.lines.connections from)
            self.old.jobs.slots.items (W.journal w.old) (W.counts w.old) →
            AllStand asks start (served_by (after result (owed.begins (suc number)))
            self.new.lines.connections from)
            self.new.jobs.slots.items (W.journal w.new) (W.counts w.new) }
        ensures over { OnOk result
            (NoneOver self.old.jobs.slots.items → NoneOver self.new.jobs.slots.items) }
        ensures size { length self.new.jobs.slots.items ≡ length self.old.jobs.slots.items }
        ensures fresh { IsFreshFrom (number + 1) self.new.lines.connections }
        ensures drained { IsDrained self.old.lines.connections →
            IsDrained self.new.lines.connections }
        ensures sound { OnOk result (IsSound self.new.lines.connections) }
        ensures waits { waits_left self.new.lines.connections ≡
            waits_left self.old.lines.connections }
        ensures buf { self.new.buf ≡ self.old.buf }
    {
        match self.lines.begin(w, number as u8, wanted) {
            Ok(()) => Ok(()),
            Err(_) => self.lose_one(w, number as u8),
        }
    }

    /// Tells each job the clock, which it is still to be told since its begin.
    pub(crate) fn read_clock(&mut self, ms: u64)
        requires { ms < 2 ^ 47 }
        ensures stands { ReadsClocks ms self.old.jobs.slots.items self.new.jobs.slots.items }
        ensures over { SameOver self.old.jobs.slots.items self.new.jobs.slots.items }
        ensures lines { self.new.lines ≡ self.old.lines }
        ensures buf { self.new.buf ≡ self.old.buf }
    {
        for number in 0..self.jobs.len() {
            self.jobs.read_clock(number, ms);
        }
    }

    /// Ends a job by the network, of which a call has failed, and leaves it. It ends no other.
    pub(crate) fn lose_one<W: World>(&mut self, w: &mut W, job: u8) -> Result<(), NoMemory>
        requires { job < 16 }
        ensures stands { (o : Owed) → may_wait o ≡ true → is_open (owed_to o job) ≡ true →
            KeepsLinesIf IsCutOff W.journal W.counts w.old w.new o (after result o)
            self.old.lines.connections self.new.lines.connections self.old.jobs.slots.items
            self.new.jobs.slots.items }
        ensures gone { OnOk result
            (is_slot_running (slice_get self.new.jobs.slots.items job) ≡ false) }
        ensures left { IsKept self.old.lines.connections self.new.lines.connections }
        ensures waiting { WaitingFrom (job + 1) self.old.jobs.slots.items →
            WaitingFrom (job + 1) self.new.jobs.slots.items }
        ensures others { KeepsOthers job self.old.jobs.slots.items self.new.jobs.slots.items }
        ensures over { OnOk result
            (is_slot_over (slice_get self.new.jobs.slots.items job) ≡ false) }
        ensures size { length self.new.jobs.slots.items ≡ length self.old.jobs.slots.items }
        ensures buf { self.new.buf ≡ self.old.buf }
        ensures sound { OnOk result (IsSoundBut job self.old.lines.connections →
            IsSound self.new.lines.connections) }
        ensures linked { OnOk result (IsBroken job self.old.lines.connections →
            open_of self.new.lines < open_of self.old.lines) }
    {
        self.jobs.lose(job as usize)?;
        self.leave(w, job)
    }

    /// Leaves a job of which it stands how it ended, before anything else is read.
    pub(crate) fn leave_where<W: World>(&mut self, w: &mut W, number: u8) -> Result<(), NoMemory>
        ensures stands { (o : Owed) → may_wait o ≡ true → is_open (owed_to o number) ≡ true →
            KeepsLines W.journal W.counts w.old w.new o (after result o)
            self.old.lines.connections self.new.lines.connections self.old.jobs.slots.items
            self.new.jobs.slots.items }
        ensures left { IsKept self.old.lines.connections self.new.lines.connections }
        ensures others { KeepsOthers number self.old.jobs.slots.items self.new.jobs.slots.items }
        ensures over { OnOk result
            (is_slot_over (slice_get self.new.jobs.slots.items number) ≡ false) }
        ensures size { length self.new.jobs.slots.items ≡ length self.old.jobs.slots.items }
        ensures buf { self.new.buf ≡ self.old.buf }
    {
        if self.jobs.is_over(number as usize) {
            self.leave(w, number)
        } else {
            Ok(())
        }
    }

    /// Leaves each job of which it stands how it ended, in their order.
    pub(crate) fn leave_over<W: World>(&mut self, w: &mut W) -> Result<(), NoMemory>
        ensures stands { KeepsLines W.journal W.counts w.old w.new owed.none
            (after result owed.none) self.old.lines.connections self.new.lines.connections
            self.old.jobs.slots.items self.new.jobs.slots.items }
        ensures left { IsKept self.old.lines.connections self.new.lines.connections }
        ensures over { OnOk result (NoneOver self.new.jobs.slots.items) }
        ensures buf { self.new.buf ≡ self.old.buf }
    {
        for number in 0..16u8 {
            self.leave_where(w, number)?;
        }
        Ok(())
    }

    /// Leaves each job, in their order, as none can go on.
    pub(crate) fn leave_all<W: World>(&mut self, w: &mut W) -> Result<(), NoMemory>
        ensures stands { KeepsLines W.journal W.counts w.old w.new owed.none
            (after result owed.none) self.old.lines.connections self.new.lines.connections
            self.old.jobs.slots.items self.new.jobs.slots.items }
        ensures left { IsKept self.old.lines.connections self.new.lines.connections }
        ensures ended { OnOk result (AllEnded self.new.jobs.slots.items) }
        ensures buf { self.new.buf ≡ self.old.buf }
    {
        for number in 0..self.jobs.len() {
            self.leave(w, number as u8)?;
        }
        Ok(())
    }

    /// Takes leave of a job: what it has queued is offered once more, its farewell last, its
    /// connections are closed, its child is ended, and how it ended is said. Nothing of another job
    /// changes.
    fn leave<W: World>(&mut self, w: &mut W, number: u8) -> Result<(), NoMemory>
        requires { number < 16 }
        ensures stands { (o : Owed) → may_wait o ≡ true → is_open (owed_to o number) ≡ true →
            KeepsLines W.journal W.counts w.old w.new o (after result o)
            self.old.lines.connections self.new.lines.connections self.old.jobs.slots.items
            self.new.jobs.slots.items }
        ensures gone { OnOk result
            (is_slot_running (slice_get self.new.jobs.slots.items number) ≡ false) }
        ensures left { IsLeft number self.old.lines.connections self.new.lines.connections }
        ensures others { KeepsOthers number self.old.jobs.slots.items self.new.jobs.slots.items }
        ensures ended { OnOk result (EndedBelow number self.old.jobs.slots.items →
            EndedBelow (number + 1) self.new.jobs.slots.items) }
        ensures over { OnOk result
            (is_slot_over (slice_get self.new.jobs.slots.items number) ≡ false) }
        // Where it ran, its line is the last that was said.
        ensures said { OnOk result (
            is_slot_running (slice_get self.old.jobs.slots.items number) ≡ true →
            IfSome (W.journal w.new) (SaysEndOf (slice_get self.new.jobs.slots.items number)
            (SayFailed W.counts w.new))) }
        ensures size { length self.new.jobs.slots.items ≡ length self.old.jobs.slots.items }
        ensures buf { self.new.buf ≡ self.old.buf }
        ensures sound { OnOk result (IsSoundBut number self.old.lines.connections →
            IsSound self.new.lines.connections) }
        ensures linked { OnOk result (IsBroken number self.old.lines.connections →
            open_of self.new.lines < open_of self.old.lines) }
    {
        self.queue_job(number)?;
        self.lines.leave(w, number);
        self.jobs.finish(w, number as usize);
        Ok(())
    }

    /// Without memory: closes the connections of each job, and ends the child of each that runs. A
    /// job that has ended says so.
    pub(crate) fn abandon<W: World>(&mut self, w: &mut W)
        ensures ended { AllEnded self.new.jobs.slots.items }
        ensures left { waits_of self.new.lines ≡ waits_of self.old.lines }
        ensures stands { KeepsLines W.journal W.counts w.old w.new owed.unknown owed.unknown
            self.old.lines.connections self.new.lines.connections self.old.jobs.slots.items
            self.new.jobs.slots.items }
    {
        for number in 0..self.jobs.len() {
            self.lines.close(w, number as u8);
            self.jobs.abandon(w, number);
        }
    }

    /// How each job from the first number on ended.
    pub(crate) fn into_answers(self, first: usize) -> Result<List<Answer>, NoMemory>
        ensures { IfOk result (λ answers. answers ≡ answers_from first self.jobs.slots.items) }
    {
        let Running { jobs, .. } = self;
        jobs.into_answers(first)
    }
}
