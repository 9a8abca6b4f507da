//! `Slot`, one job of a run.
ghost use Rattle.std.specs.Prelude.{◌≡◌, IfSome, Some, true};
ghost use Rattle.said_lines.specs.Between.{SayFailed};
ghost use Rattle.batch_run.specs.Stands.{EndsSaying, SlotFinishes, SlotStops, KeepsSaying};
ghost use Rattle.batch_run.specs.Stands.{is_slot_running};

use job_end::Answer;
use job_run::Job;
use jtext::{Bytes, NoMemory};
use said_lines::say;
use std::alloc::Global;
use std::mem;
use world::{Chan, World};

/// A job that hasn't begun, one that runs, or how it ended. Only one that runs is told anything.
#[derive(Drop)]
pub(crate) enum Slot {
    Waiting,
    Running(Job),
    Ended(Answer),
}

impl Slot {
    ghost use Rattle.std.specs.Prelude.{◌≡◌, ◌<◌, ◌^◌, Some, true, false, IfSome, suc};
    ghost use Rattle.said_lines.specs.Between.{SayFailed};
    ghost use Rattle.ready_loop.specs.History.{conn_on};
    ghost use Rattle.batch_run.specs.Due.{IsSlotDue, SlotWantsLook, is_slot_over};
    ghost use Rattle.batch_run.specs.Owed as owed;
    ghost use Rattle.batch_run.specs.Stands.{HasEnded, SaysEndOf, SlotKeeps, SlotStays, is_slot_running};
    ghost use Rattle.batch_run.specs.Stands.{IsCutOff, IsOutOfWaits, SlotStaysIf};
    ghost use Rattle.batch_run.specs.Stands.{SlotFinishes, SlotNotes, SlotReads, SlotStops};

    /// The slot of a number before any job begins: where its job ran before, that has ended, and
    /// nothing more is told of it.
    pub(crate) fn new(alloc: Global, ran_before: bool) -> Slot
        ensures ended { ran_before ≡ true → HasEnded result }
        ensures waiting { ran_before ≡ false → result ≡ Slot.Waiting }
    {
        if ran_before {
            Slot::Ended(Answer::starved(alloc))
        } else {
            Slot::Waiting
        }
    }

    /// Whether a job runs of which it stands how it ended.
    pub(crate) fn is_over(&self) -> bool
        ensures { result ≡ is_slot_over (Some self.now) }
    {
        match self {
            Slot::Running(job) => job.outcome().is_some(),
            Slot::Waiting | Slot::Ended(_) => false,
        }
    }

    /// Whether a last look of the job is to be made.
    pub(crate) fn wants_look(&self) -> bool
        ensures { SlotWantsLook (Some self.now) result }
    {
        match self {
            Slot::Running(job) => job.wants_look(),
            Slot::Waiting | Slot::Ended(_) => false,
        }
    }

    /// The next moment at which the clock brings something to the job.
    pub(crate) fn next_moment(&self) -> Option<u64>
        ensures { IsSlotDue self.now result }
    {
        match self {
            Slot::Running(job) => job.due(),
            Slot::Waiting | Slot::Ended(_) => None,
        }
    }

    /// Hands out what the job has queued on this channel, where there is anything.
    pub(crate) fn hand_out(&mut self, chan: Chan) -> Option<Bytes>
        ensures stays { SlotStays self.old self.new }
        ensures runs { is_slot_running (Some self.new) ≡ is_slot_running (Some self.old) }
        ensures over { is_slot_over (Some self.new) ≡ is_slot_over (Some self.old) }
    {
        match self {
            Slot::Running(job) => job.hand_out(chan),
            Slot::Waiting | Slot::Ended(_) => None,
        }
    }

    /// So many bytes of this channel were taken.
    pub(crate) fn on_taken(&mut self, chan: Chan, taken: u64)
        ensures stays { SlotStays self.old self.new }
        ensures over { is_slot_over (Some self.new) ≡ is_slot_over (Some self.old) }
        // Where a job runs it knows how many were taken.
        ensures taken { SlotNotes chan taken (Some self.old) (Some self.new) }
    {
        match self {
            Slot::Running(job) => job.on_taken(chan, taken),
            Slot::Waiting | Slot::Ended(_) => {}
        }
    }

    /// The clock stands at this moment, which a job is told that has begun.
    pub(crate) fn read_clock(&mut self, ms: u64)
        requires { ms < 2 ^ 47 }
        ensures reads { SlotReads ms self.old self.new }
        ensures over { is_slot_over (Some self.new) ≡ is_slot_over (Some self.old) }
    {
        match self {
            Slot::Running(job) => job.read_clock(ms),
            Slot::Waiting | Slot::Ended(_) => {}
        }
    }

    /// The clock of a turn was read.
    pub(crate) fn on_moment<W: World>(&mut self, w: &mut W, ms: u64) -> Result<(), NoMemory>
        requires { ms < 2 ^ 47 }
        ensures { SlotKeeps W.journal W.counts w.old w.new (owed.turn_clock ms)
            (λ k. owed.turn_clock ms (suc k)) self.old self.new }
    {
        match self {
            Slot::Running(job) => job.on_moment(w, ms),
            Slot::Waiting | Slot::Ended(_) => Ok(()),
        }
    }

    /// A piece came on this channel.
    pub(crate) fn on_piece<W: World>(
        &mut self,
        w: &mut W,
        chan: Chan,
        piece: &[u8],
    ) -> Result<(), NoMemory>
        ensures { SlotKeeps W.journal W.counts w.old w.new
            (λ k. owed.piece (conn_on k chan) piece.now) (λ k. owed.none) self.old self.new }
    {
        match self {
            Slot::Running(job) => job.on_piece(w, chan, piece),
            Slot::Waiting | Slot::Ended(_) => Ok(()),
        }
    }

    /// A connection has ended.
    pub(crate) fn on_ended(&mut self)
        ensures stays { SlotStays self.old self.new }
        ensures over { is_slot_over (Some self.new) ≡ is_slot_over (Some self.old) }
    {
        match self {
            Slot::Running(job) => job.on_ended(),
            Slot::Waiting | Slot::Ended(_) => {}
        }
    }

    /// The wait of a last look was made.
    pub(crate) fn on_waited(&mut self)
        ensures stays { SlotStays self.old self.new }
        ensures over { is_slot_over (Some self.new) ≡ is_slot_over (Some self.old) }
    {
        match self {
            Slot::Running(job) => job.on_waited(),
            Slot::Waiting | Slot::Ended(_) => {}
        }
    }

    /// The reads of a last look are done.
    pub(crate) fn on_looked<W: World>(&mut self, w: &mut W) -> Result<(), NoMemory>
        ensures { SlotKeeps W.journal W.counts w.old w.new (λ k. owed.none) (λ k. owed.none)
            self.old self.new }
    {
        match self {
            Slot::Running(job) => job.on_looked(w),
            Slot::Waiting | Slot::Ended(_) => Ok(()),
        }
    }

    /// Ends the job by the network, of which a call has failed.
    pub(crate) fn lose(&mut self) -> Result<(), NoMemory>
        ensures { SlotStaysIf IsCutOff self.old self.new }
    {
        match self {
            Slot::Running(job) => job.lose_network(),
            Slot::Waiting | Slot::Ended(_) => Ok(()),
        }
    }

    /// Ends the job by the number of waits, which were all made.
    pub(crate) fn spend(&mut self) -> Result<(), NoMemory>
        ensures { SlotStaysIf IsOutOfWaits self.old self.new }
    {
        match self {
            Slot::Running(job) => job.spend(),
            Slot::Waiting | Slot::Ended(_) => Ok(()),
        }
    }

    /// Ends the child of a job that runs, without a word.
    pub(crate) fn stop<W: World>(&mut self, alloc: Global, w: &mut W)
        ensures ended { HasEnded self.new }
        ensures stands { SlotStops W.journal W.counts w.old w.new self.old self.new }
    {
        let slot = mem::replace(self, Slot::Waiting);
        let ended = Slot::Ended(end_of(alloc, w, slot));
        drop(mem::replace(self, ended));
    }

    /// Ends the child of a job that runs, and says how it ended.
    pub(crate) fn finish<W: World>(&mut self, alloc: Global, w: &mut W)
        ensures ended { HasEnded self.new }
        // Where one ran, its line is the last that was said.
        ensures said { is_slot_running (Some self.old) ≡ true →
            IfSome (W.journal w.new) (SaysEndOf (Some self.new) (SayFailed W.counts w.new)) }
        ensures stands { SlotFinishes W.journal W.counts w.old w.new self.old self.new }
    {
        let slot = mem::replace(self, Slot::Waiting);
        let ended = Slot::Ended(end_and_say(alloc, w, slot));
        drop(mem::replace(self, ended));
    }
}

/// How a job ended: of one that runs the child is ended.
fn end_of<W: World>(alloc: Global, w: &mut W, slot: Slot) -> Answer
    ensures { SlotStops W.journal W.counts w.old w.new slot (Slot.Ended result) }
{
    match slot {
        Slot::Running(job) => job.finish(w),
        Slot::Ended(answer) => answer,
        Slot::Waiting => Answer::starved(alloc),
    }
}

/// How a job ended: of one that runs the child is ended, and how it ended is said.
fn end_and_say<W: World>(alloc: Global, w: &mut W, slot: Slot) -> Answer
    ensures keeps { SlotFinishes W.journal W.counts w.old w.new slot (Slot.Ended result) }
    ensures said { is_slot_running (Some slot) ≡ true →
        IfSome (W.journal w.new) (EndsSaying result.line (SayFailed W.counts w.new)) }
{
    match slot {
        Slot::Running(job) => {
            let answer = job.finish(w);
            say_end(w, &answer);
            answer
        }
        Slot::Ended(answer) => answer,
        Slot::Waiting => Answer::starved(alloc),
    }
}

/// Says how a job ended.
pub(crate) fn say_end<W: World>(w: &mut W, answer: &Answer)
    ensures keeps { KeepsSaying W.journal W.counts w.old w.new answer.now }
    ensures said { IfSome (W.journal w.new)
        (EndsSaying answer.now.line (SayFailed W.counts w.new)) }
{
    say(w, answer.line.bytes());
}
