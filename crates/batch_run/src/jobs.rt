//! `Jobs`, the jobs of a run by their numbers.
ghost use Rattle.std.specs.Prelude.{◌≡◌, ◌≤◌, ◌++◌, ◌∷◌, [], length, OnOk, true, false};
ghost use Rattle.batch_run.specs.Stands.{answers_of};

use crate::slot::{Slot, say_end};
use crate::wanted::Wanted;
use job_begin::begin;
use job_end::Answer;
use job_run::{Job, earlier};
use jtext::{List, NoMemory, Text};
use std::alloc::Global;
use std::mem;
use words::Ask;
use world::World;

/// The jobs of a run, by their numbers.
#[derive(Drop)]
pub(crate) struct Jobs {
    pub alloc: Global,
    pub slots: Vec<Slot>,
    ghost few: { length slots.items ≤ 16 },
}

impl Jobs {
    ghost use Rattle.std.specs.Prelude.{◌≡◌, ◌<◌, ◌≤◌, ◌+◌, ℕ, IfOk, IfSome, IsTrue, true, false};
    ghost use Rattle.said_lines.specs.Between.{SayFailed};
    ghost use Rattle.job_run.specs.Run.{HasPorts};
    ghost use Rattle.job_run.specs.Task.{ports_of_job, pings_kernel};
    ghost use Rattle.std.specs.Prelude.{List as Plain, Option as Maybe, Some, None, Ok, length, slice_get, slice_set};
    ghost use Rattle.words.specs.Runnable.{IsRunnable};
    ghost use Rattle.batch_run.specs.Due.{IsEarliestDue, SlotWantsLook, is_slot_over};
    ghost use Rattle.words.specs.declared.ask.Ask.{Ask as Asked};
    ghost use Rattle.world.specs.declared.entry.Entry.{Entry};
    ghost use Rattle.batch_run.specs.Owed as owed;
    ghost use Rattle.batch_run.specs.Owed.{AreClosed, after};
    ghost use Rattle.batch_run.specs.Stands.{AllStand, AllEnded, EndedBelow, FinishesAll, Outset, owing};
    ghost use Rattle.batch_run.specs.Stands.{KeepsOthers, KeepsSaying, SaysEndOf, WaitingFrom, answers_from};
    ghost use Rattle.batch_run.specs.Stands.{StopsAll, is_slot_running};

    /// So many jobs from the first number on, of which none has begun. Those of the numbers below ran
    /// before, and have ended.
    pub(crate) fn new(alloc: Global, first: usize, count: usize) -> Result<Jobs, NoMemory>
        requires { first + count ≤ 16 }
        ensures count { IfOk result (λ j. length j.slots.items ≡ first + count) }
        ensures ended { IfOk result (λ j. EndedBelow first j.slots.items) }
        ensures waiting { IfOk result (λ j. WaitingFrom first j.slots.items) }
    {
        let mut slots = Vec::with_capacity(alloc, 16)?;
        while slots.len() < first + count {
            let ran_before = slots.len() < first;
            slots.push(Slot::new(alloc, ran_before))?;
        }
        Ok(Jobs { alloc, slots })
    }

    /// How many jobs there are.
    pub(crate) fn len(&self) -> usize
        ensures is { result ≡ length self.now.slots.items }
        ensures few { result ≤ 16 }
    {
        self.slots.len()
    }

    /// Begins a job. Where it runs, its connections are wanted.
    pub(crate) fn begin<W: World>(
        &mut self,
        w: &mut W,
        number: usize,
        ask: Ask,
        here: &Text,
    ) -> Result<Option<Wanted>, NoMemory>
        requires within { number < length self.old.slots.items }
        requires ask { IsRunnable ask }
        requires waiting { WaitingFrom number self.old.slots.items }
        ensures size { length self.new.slots.items ≡ length self.old.slots.items }
        ensures waiting { WaitingFrom (number + 1) self.new.slots.items }
        ensures others { KeepsOthers number self.old.slots.items self.new.slots.items }
        ensures over { is_slot_over (slice_get self.new.slots.items number) ≡ false }
        ensures none { result ≡ Ok None →
            is_slot_running (slice_get self.new.slots.items number) ≡ false }
        ensures runs { IfOk result (λ o. IfSome o
            (λ _. is_slot_running (slice_get self.new.slots.items number) ≡ true)) }
        // Its connections were never begun. Then the first clock is still to be told to it.
        ensures stands { (asks : ℕ → Maybe Asked) (start : Maybe (Plain Entry)) (from : Outset) →
            asks number ≡ Some ask → from.here ≡ here.now → AreClosed from.loop number →
            AllStand asks start (owing (owed.begins number) from) self.old.slots.items
            (W.journal w.old) (W.counts w.old) →
            AllStand asks start (owing (after result (owed.begins number)) from)
            self.new.slots.items (W.journal w.new) (W.counts w.new) }
        // The connections that it wants are on the ports that were given for it.
        ensures ports { IfOk result (λ o.
            IfSome o (λ wanted. HasPorts number wanted.ports (W.journal w.new))) }
        // That of the heartbeat is among them where that was asked for.
        ensures heart { IfOk result (λ o.
            IfSome o (λ wanted. wanted.heart ≡ ask.heartbeat)) }
    {
        // The clock never goes back.
        let _before = w.last();
        match begin(self.alloc, w, number as u8, ask, here) {
            Ok(job) => {
                let _now = w.last();
                Ok(Some(self.start(number, job)))
            }
            Err(answer) => {
                let _now = w.last();
                self.end(w, number, answer)
            }
        }
    }

    /// The job runs. The connections that it wants.
    fn start(&mut self, number: usize, job: Job) -> Wanted
        requires { number < length self.old.slots.items }
        ensures slots { self.new.slots.items
            ≡ slice_set self.old.slots.items number (Slot.Running job) }
        ensures ports { result.ports ≡ ports_of_job job }
        ensures heart { result.heart ≡ pings_kernel job }
    {
        let wanted = Wanted::of(&job);
        let former = mem::replace(&mut self.slots[number], Slot::Running(job));
        drop(former);
        wanted
    }

    /// The job has ended so, which is said. It wants no connections.
    fn end<W: World>(
        &mut self,
        w: &mut W,
        number: usize,
        answer: Answer,
    ) -> Result<Option<Wanted>, NoMemory>
        requires within { number < length self.old.slots.items }
        ensures slots { self.new.slots.items
            ≡ slice_set self.old.slots.items number (Slot.Ended answer) }
        ensures stands { KeepsSaying W.journal W.counts w.old w.new answer }
        ensures none { IfOk result (λ o. o ≡ None) }
    {
        let is_starved = answer.status == 12;
        say_end(w, &answer);
        let former = mem::replace(&mut self.slots[number], Slot::Ended(answer));
        drop(former);
        if is_starved { Err(NoMemory) } else { Ok(None) }
    }

    /// Whether each job has ended, and how was said.
    pub(crate) fn are_done(&self) -> bool
        ensures { IsTrue result → AllEnded self.now.slots.items }
    {
        for slot in self.slots.iter() {
            match slot {
                Slot::Ended(_) => {}
                Slot::Waiting | Slot::Running(_) => return false,
            }
        }
        true
    }

    /// Whether a job runs of which it stands how it ended.
    pub(crate) fn is_over(&self, number: usize) -> bool
        ensures { result ≡ is_slot_over (slice_get self.now.slots.items number) }
    {
        match self.slots.get(number) {
            Some(slot) => slot.is_over(),
            None => false,
        }
    }

    /// Ends the child of a job that runs, and says how it ended.
    pub(crate) fn finish<W: World>(&mut self, w: &mut W, number: usize)
        ensures ended { EndedBelow number self.old.slots.items →
            EndedBelow (number + 1) self.new.slots.items }
        ensures over { is_slot_over (slice_get self.new.slots.items number) ≡ false }
        ensures others { KeepsOthers number self.old.slots.items self.new.slots.items }
        // Where it ran, its line is the last that was said.
        ensures said { is_slot_running (slice_get self.old.slots.items number) ≡ true →
            IfSome (W.journal w.new)
            (SaysEndOf (slice_get self.new.slots.items number) (SayFailed W.counts w.new)) }
        ensures size { length self.new.slots.items ≡ length self.old.slots.items }
        ensures stands { FinishesAll W.journal W.counts w.old w.new number
            self.old.slots.items self.new.slots.items }
        ensures gone { is_slot_running (slice_get self.new.slots.items number) ≡ false }
    {
        if number < self.slots.len() {
            self.slots[number].finish(self.alloc, w);
        }
    }

    /// Ends the child of a job that runs. Where it stands how the job ended, that is said.
    pub(crate) fn abandon<W: World>(&mut self, w: &mut W, number: usize)
        ensures ended { EndedBelow number self.old.slots.items →
            EndedBelow (number + 1) self.new.slots.items }
        ensures said { is_slot_over (slice_get self.old.slots.items number) ≡ true →
            IfSome (W.journal w.new)
            (SaysEndOf (slice_get self.new.slots.items number) (SayFailed W.counts w.new)) }
        ensures size { length self.new.slots.items ≡ length self.old.slots.items }
        ensures stands { StopsAll W.journal W.counts w.old w.new number
            self.old.slots.items self.new.slots.items }
        ensures gone { is_slot_running (slice_get self.new.slots.items number) ≡ false }
    {
        if self.is_over(number) {
            self.finish(w, number);
        } else {
            self.stop(w, number);
        }
    }

    /// How each job from the first number on ended, in their order.
    pub(crate) fn into_answers(self, first: usize) -> Result<List<Answer>, NoMemory>
        ensures { IfOk result (λ answers. answers ≡ answers_from first self.slots.items) }
    {
        let mut answers = List::new(self.alloc);
        let mut number = 0;
        for slot in self.slots {
            push_where(&mut answers, slot, number >= first)?;
            number += 1;
        }
        Ok(answers)
    }

    /// The earliest moment at which the clock brings something to a job that runs.
    pub(crate) fn due(&self) -> Option<u64>
        ensures { IsEarliestDue self.now.slots.items result }
    {
        let mut due = None;
        for slot in self.slots.iter() {
            due = earlier(due, slot.next_moment());
        }
        due
    }

    /// Whether a last look of the job is to be made.
    pub(crate) fn wants_look(&self, number: usize) -> bool
        ensures { SlotWantsLook (slice_get self.now.slots.items number) result }
    {
        match self.slots.get(number) {
            Some(slot) => slot.wants_look(),
            None => false,
        }
    }
}

/// Puts how this job ended at the end, if it has, and is one of this run.
fn push_where(answers: &mut List<Answer>, slot: Slot, is_own: bool) -> Result<(), NoMemory>
    ensures own { is_own ≡ true →
        OnOk result (answers.new ≡ answers.old ++ answers_of (slot ∷ [])) }
    ensures other { is_own ≡ false → answers.new ≡ answers.old }
{
    if is_own {
        push_answer(answers, slot)
    } else {
        drop(slot);
        Ok(())
    }
}

/// Puts how this job ended at the end, if it has.
fn push_answer(answers: &mut List<Answer>, slot: Slot) -> Result<(), NoMemory>
    ensures { OnOk result (answers.new ≡ answers.old ++ answers_of (slot ∷ [])) }
{
    match slot {
        Slot::Ended(answer) => answers.push(answer),
        Slot::Waiting => Ok(()),
        Slot::Running(job) => {
            drop(job);
            Ok(())
        }
    }
}
