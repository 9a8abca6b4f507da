//! What the connections and the clock bring is told to the jobs.

use crate::jobs::Jobs;
use jtext::{Bytes, NoMemory};
use world::{Chan, World};

impl Jobs {
    ghost use Rattle.std.specs.Prelude.{◌≡◌, ◌<◌, ◌+◌, ◌^◌, false, length, slice_get, suc};
    ghost use Rattle.ready_loop.specs.History.{conn_on};
    ghost use Rattle.batch_run.specs.Owed as owed;
    ghost use Rattle.batch_run.specs.Stands.{ChangesAt, EndedBelow, KeepsOwed, KeepsOthers, StayAll};
    ghost use Rattle.batch_run.specs.Stands.{ReadsClock, SameOver, SlotNotes, StayAt, StopsAll};
    ghost use Rattle.batch_run.specs.Stands.{IsCutOff, IsOutOfWaits, StayAllIf, StayAtIf};
    ghost use Rattle.batch_run.specs.Stands.{WaitingFrom, is_slot_running};

    /// Hands out what a job has queued on this channel, where there is anything.
    pub(crate) fn hand_out(&mut self, number: usize, chan: Chan) -> Option<Bytes>
        ensures stands { StayAt number self.old.slots.items self.new.slots.items }
        ensures over { SameOver self.old.slots.items self.new.slots.items }
        ensures at { ChangesAt number self.old.slots.items self.new.slots.items }
    {
        if number >= self.slots.len() {
            return None;
        }
        self.slots[number].hand_out(chan)
    }

    /// So many bytes of this channel were taken.
    pub(crate) fn on_taken(&mut self, number: usize, chan: Chan, taken: u64)
        ensures stands { StayAt number self.old.slots.items self.new.slots.items }
        ensures over { SameOver self.old.slots.items self.new.slots.items }
        ensures others { KeepsOthers number self.old.slots.items self.new.slots.items }
        ensures size { length self.new.slots.items ≡ length self.old.slots.items }
        // Where the job runs it knows how many were taken.
        ensures taken { SlotNotes chan taken (slice_get self.old.slots.items number)
            (slice_get self.new.slots.items number) }
    {
        if number < self.slots.len() {
            self.slots[number].on_taken(chan, taken);
        }
    }

    /// The clock stands at this moment, which a job is told that has begun.
    pub(crate) fn read_clock(&mut self, number: usize, ms: u64)
        requires { ms < 2 ^ 47 }
        ensures stands { ReadsClock number ms self.old.slots.items self.new.slots.items }
        ensures others { KeepsOthers number self.old.slots.items self.new.slots.items }
        ensures over { SameOver self.old.slots.items self.new.slots.items }
    {
        if number < self.slots.len() {
            self.slots[number].read_clock(ms);
        }
    }

    /// The clock of a turn was read.
    pub(crate) fn on_moment<W: World>(
        &mut self,
        w: &mut W,
        number: usize,
        ms: u64,
    ) -> Result<(), NoMemory>
        requires { ms < 2 ^ 47 }
        ensures stands { KeepsOwed W.journal W.counts w.old w.new (owed.turn_clock ms number)
            (owed.turn_clock ms (suc number)) self.old.slots.items self.new.slots.items }
        ensures others { KeepsOthers number self.old.slots.items self.new.slots.items }
    {
        if number >= self.slots.len() {
            return Ok(());
        }
        self.slots[number].on_moment(w, ms)
    }

    /// A piece came on this channel.
    pub(crate) fn on_piece<W: World>(
        &mut self,
        w: &mut W,
        number: usize,
        chan: Chan,
        piece: &[u8],
    ) -> Result<(), NoMemory>
        ensures stands { KeepsOwed W.journal W.counts w.old w.new
            (owed.piece (conn_on number chan) piece.now) owed.none self.old.slots.items
            self.new.slots.items }
        ensures others { KeepsOthers number self.old.slots.items self.new.slots.items }
    {
        if number >= self.slots.len() {
            return Ok(());
        }
        self.slots[number].on_piece(w, chan, piece)
    }

    /// A connection of the job has ended.
    pub(crate) fn on_ended(&mut self, number: usize)
        ensures stands { StayAt number self.old.slots.items self.new.slots.items }
        ensures over { SameOver self.old.slots.items self.new.slots.items }
        ensures others { KeepsOthers number self.old.slots.items self.new.slots.items }
    {
        if number < self.slots.len() {
            self.slots[number].on_ended();
        }
    }

    /// The connections at these places have ended.
    pub(crate) fn on_ends(&mut self, ends: &[bool; 64])
        ensures stands { StayAll self.old.slots.items self.new.slots.items }
        ensures over { SameOver self.old.slots.items self.new.slots.items }
    {
        for place in 0..64usize {
            self.end_where(place / 4, ends[place]);
        }
    }

    fn end_where(&mut self, number: usize, has_ended: bool)
        ensures stands { StayAt number self.old.slots.items self.new.slots.items }
        ensures over { SameOver self.old.slots.items self.new.slots.items }
    {
        if has_ended {
            self.on_ended(number);
        }
    }

    /// The wait of a last look was made for these jobs.
    pub(crate) fn on_waited(&mut self, looks: &[bool; 16])
        ensures stands { StayAll self.old.slots.items self.new.slots.items }
        ensures over { SameOver self.old.slots.items self.new.slots.items }
    {
        for number in 0..16usize {
            self.wait_where(number, looks[number]);
        }
    }

    fn wait_where(&mut self, number: usize, was_made: bool)
        ensures stands { StayAt number self.old.slots.items self.new.slots.items }
        ensures over { SameOver self.old.slots.items self.new.slots.items }
    {
        if was_made {
            self.mark_waited(number);
        }
    }

    fn mark_waited(&mut self, number: usize)
        ensures stands { StayAt number self.old.slots.items self.new.slots.items }
        ensures over { SameOver self.old.slots.items self.new.slots.items }
    {
        if number < self.slots.len() {
            self.slots[number].on_waited();
        }
    }

    /// The reads of a last look are done for a job, where one was made for it.
    pub(crate) fn look_where<W: World>(
        &mut self,
        w: &mut W,
        number: usize,
        was_made: bool,
    ) -> Result<(), NoMemory>
        ensures stands { KeepsOwed W.journal W.counts w.old w.new owed.none owed.none
            self.old.slots.items self.new.slots.items }
        ensures others { KeepsOthers number self.old.slots.items self.new.slots.items }
    {
        if was_made {
            self.finish_look(w, number)
        } else {
            Ok(())
        }
    }

    fn finish_look<W: World>(&mut self, w: &mut W, number: usize) -> Result<(), NoMemory>
        ensures stands { KeepsOwed W.journal W.counts w.old w.new owed.none owed.none
            self.old.slots.items self.new.slots.items }
        ensures others { KeepsOthers number self.old.slots.items self.new.slots.items }
    {
        if number >= self.slots.len() {
            return Ok(());
        }
        self.slots[number].on_looked(w)
    }

    /// Ends a job that runs by the network, of which a call has failed.
    pub(crate) fn lose(&mut self, number: usize) -> Result<(), NoMemory>
        ensures size { length self.new.slots.items ≡ length self.old.slots.items }
        ensures waiting { WaitingFrom (number + 1) self.old.slots.items →
            WaitingFrom (number + 1) self.new.slots.items }
        ensures stands { StayAtIf IsCutOff number self.old.slots.items self.new.slots.items }
        ensures others { KeepsOthers number self.old.slots.items self.new.slots.items }
    {
        if number >= self.slots.len() {
            return Ok(());
        }
        self.slots[number].lose()
    }

    /// Ends each job that runs by the network, of which a call has failed.
    pub(crate) fn lose_all(&mut self) -> Result<(), NoMemory>
        ensures stands { StayAllIf IsCutOff self.old.slots.items self.new.slots.items }
    {
        for number in 0..16usize {
            self.lose(number)?;
        }
        Ok(())
    }

    /// Ends each job that runs by the number of waits, which were all made.
    pub(crate) fn spend_all(&mut self) -> Result<(), NoMemory>
        ensures stands { StayAllIf IsOutOfWaits self.old.slots.items self.new.slots.items }
    {
        for number in 0..16usize {
            self.spend(number)?;
        }
        Ok(())
    }

    fn spend(&mut self, number: usize) -> Result<(), NoMemory>
        ensures stands { StayAtIf IsOutOfWaits number self.old.slots.items self.new.slots.items }
    {
        if number >= self.slots.len() {
            return Ok(());
        }
        self.slots[number].spend()
    }

    /// Ends the child of a job that runs, without a word.
    pub(crate) fn stop<W: World>(&mut self, w: &mut W, number: usize)
        ensures ended { EndedBelow number self.old.slots.items →
            EndedBelow (number + 1) self.new.slots.items }
        ensures size { length self.new.slots.items ≡ length self.old.slots.items }
        ensures stands { StopsAll W.journal W.counts w.old w.new number
            self.old.slots.items self.new.slots.items }
        ensures gone { is_slot_running (slice_get self.new.slots.items number) ≡ false }
    {
        if number < self.slots.len() {
            self.slots[number].stop(self.alloc, w);
        }
    }
}
