//! The turns of a run.
ghost use Rattle.std.specs.Prelude.{◌≡◌};

use crate::fault::Fault;
use crate::reading::Reading;
use crate::running::Running;
use jtext::NoMemory;
use ready_loop::Next;
use world::{Chan, Conn, World};

/// The four channels.
const CHANS: [Chan; 4] = [Chan::Shell, Chan::Control, Chan::Iopub, Chan::Heart];

impl Running {
    ghost use Rattle.std.specs.Prelude.{◌≡◌, ◌<◌, ◌≤◌, ◌^◌, Ok, true, false, OnOk};
    ghost use Rattle.std.specs.Prelude.{length, slice_get, take};
    ghost use Rattle.ready_loop.specs.States.{IsDrained, IsOffered, IsSound};
    ghost use Rattle.batch_run.specs.Due.{AreLooksBelow, is_slot_over};
    ghost use Rattle.batch_run.specs.Kept.{IsKept, IsLeft, LeftBy, StaysBegun, goes_on};
    ghost use Rattle.batch_run.specs.Lines.{budget, open_of, reads_of, waits_of};
    ghost use Rattle.batch_run.specs.Stands.{AllEnded, ChangesAt, ChangesOne, KeepsOthers, NoneOver};
    ghost use Rattle.batch_run.specs.Stands.{IsFaultOf, KeepsLines, KeepsLinesIf, KeepsWaiting};
    ghost use Rattle.batch_run.specs.Stands.{NoneWantsLook};
    ghost use Rattle.batch_run.specs.Stands.{AreTaken, SameOver, StayAll, StayLines, StayLinesAt};
    ghost use Rattle.batch_run.specs.Owed.{after};
    ghost use Rattle.batch_run.specs.Owed as owed;
    ghost use Rattle.batch_run.specs.Telling.{IsTakenOn};
    ghost use Rattle.world.specs.declared.chan.Chan.TheVariants.{Iopub};
    ghost use Rattle.batch_run.specs.declared.reading.Reading.TheVariants as reading;

    /// Turn after turn, until each job has ended.
    pub(crate) fn run<W: World>(&mut self, w: &mut W) -> Result<(), NoMemory>
        requires drained { IsDrained self.old.lines.connections }
        requires sound { IsSound self.old.lines.connections }
        requires room { 0 < length self.old.buf.items }
        ensures stands { NoneOver self.old.jobs.slots.items →
            KeepsWaiting W.journal W.counts w.old w.new (after result owed.none) self.old.lines
            self.new.lines self.old.jobs.slots.items self.new.jobs.slots.items }
        ensures left { waits_of self.new.lines ≤ waits_of self.old.lines }
        ensures ended { OnOk result (AllEnded self.new.jobs.slots.items) }
    {
        while self.turn(w)? {}
        Ok(())
    }

    /// Puts out what is queued, and waits. Whether a job goes on.
    fn turn<W: World>(&mut self, w: &mut W) -> Result<bool, NoMemory>
        requires drained { IsDrained self.old.lines.connections }
        requires sound { IsSound self.old.lines.connections }
        requires room { 0 < length self.old.buf.items }
        ensures drained { result ≡ Ok true → IsDrained self.new.lines.connections }
        ensures sound { result ≡ Ok true → IsSound self.new.lines.connections }
        ensures room { 0 < length self.new.buf.items }
        ensures budget { result ≡ Ok true → budget self.new.lines < budget self.old.lines }
        ensures stands { NoneOver self.old.jobs.slots.items →
            KeepsWaiting W.journal W.counts w.old w.new (after result owed.none) self.old.lines
            self.new.lines self.old.jobs.slots.items self.new.jobs.slots.items }
        ensures left { waits_of self.new.lines ≤ waits_of self.old.lines }
        // Each job of which it stands how it ended was left.
        ensures over { result ≡ Ok true → NoneOver self.new.jobs.slots.items }
        ensures ended { result ≡ Ok false → AllEnded self.new.jobs.slots.items }
    {
        self.put_out(w)?;
        if self.jobs.are_done() {
            return Ok(false);
        }
        self.go_on(w)
    }

    /// Waits, and reads what came. Whether a job may go on.
    fn go_on<W: World>(&mut self, w: &mut W) -> Result<bool, NoMemory>
        requires drained { IsDrained self.old.lines.connections }
        requires offered { IsOffered self.old.lines.connections }
        requires sound { IsSound self.old.lines.connections }
        requires room { 0 < length self.old.buf.items }
        ensures drained { result ≡ Ok true → IsDrained self.new.lines.connections }
        ensures sound { result ≡ Ok true → IsSound self.new.lines.connections }
        ensures room { 0 < length self.new.buf.items }
        ensures budget { result ≡ Ok true → budget self.new.lines < budget self.old.lines }
        ensures stands { NoneOver self.old.jobs.slots.items →
            AreTaken self.old.lines.connections self.old.jobs.slots.items →
            KeepsWaiting W.journal W.counts w.old w.new (after result owed.none) self.old.lines
            self.new.lines self.old.jobs.slots.items self.new.jobs.slots.items }
        ensures left { waits_of self.new.lines ≤ waits_of self.old.lines }
        ensures over { result ≡ Ok true → NoneOver self.new.jobs.slots.items }
        ensures ended { result ≡ Ok false → AllEnded self.new.jobs.slots.items }
    {
        let looks = self.looks();
        if looks.contains(&true) {
            self.look(w, looks)
        } else {
            self.wait(w)
        }
    }

    /// Puts out what is queued, and tells each job what was taken. A job of which a connection fails
    /// is left.
    fn put_out<W: World>(&mut self, w: &mut W) -> Result<(), NoMemory>
        requires sound { IsSound self.old.lines.connections }
        ensures offered { OnOk result (IsOffered self.new.lines.connections) }
        ensures sound { OnOk result (IsSound self.new.lines.connections) }
        ensures drained { IsDrained self.old.lines.connections →
            IsDrained self.new.lines.connections }
        ensures buf { self.new.buf ≡ self.old.buf }
        ensures linked { open_of self.new.lines ≤ open_of self.old.lines }
        ensures stands { KeepsLines W.journal W.counts w.old w.new owed.none
            (after result owed.none) self.old.lines.connections self.new.lines.connections
            self.old.jobs.slots.items self.new.jobs.slots.items }
        ensures taken { OnOk result
            (AreTaken self.new.lines.connections self.new.jobs.slots.items) }
        ensures over { OnOk result
            (NoneOver self.old.jobs.slots.items → NoneOver self.new.jobs.slots.items) }
        ensures left { waits_of self.new.lines ≡ waits_of self.old.lines }
    {
        loop {
            self.queue_all()?;
            match self.lines.offer(w) {
                Ok(ends) => {
                    self.jobs.on_ends(&ends);
                    self.tell_taken();
                    return Ok(());
                }
                Err(job) => self.lose_one(w, job)?,
            }
        }
    }

    fn queue_all(&mut self) -> Result<(), NoMemory>
        ensures left { IsKept self.old.lines.connections self.new.lines.connections }
        ensures buf { self.new.buf ≡ self.old.buf }
        ensures stands { StayLines self.old.lines.connections self.new.lines.connections
            self.old.jobs.slots.items self.new.jobs.slots.items }
        ensures over { SameOver self.old.jobs.slots.items self.new.jobs.slots.items }
    {
        for number in 0..self.jobs.len() {
            self.queue_job(number as u8)?;
        }
        Ok(())
    }

    /// Queues what a job hands out.
    pub(crate) fn queue_job(&mut self, job: u8) -> Result<(), NoMemory>
        requires { job < 16 }
        ensures left { IsLeft job self.old.lines.connections self.new.lines.connections }
        ensures linked { StaysBegun self.old.lines.connections self.new.lines.connections }
        ensures at { ChangesAt job self.old.jobs.slots.items self.new.jobs.slots.items }
        ensures buf { self.new.buf ≡ self.old.buf }
        ensures stands { StayLinesAt job self.old.lines.connections self.new.lines.connections
            self.old.jobs.slots.items self.new.jobs.slots.items }
        ensures over { SameOver self.old.jobs.slots.items self.new.jobs.slots.items }
    {
        for chan in CHANS {
            self.queue_on(Conn { job, chan })?;
        }
        Ok(())
    }

    fn queue_on(&mut self, conn: Conn) -> Result<(), NoMemory>
        requires { conn.job < 16 }
        ensures left { IsLeft conn.job self.old.lines.connections self.new.lines.connections }
        ensures linked { StaysBegun self.old.lines.connections self.new.lines.connections }
        ensures at { ChangesAt conn.job self.old.jobs.slots.items self.new.jobs.slots.items }
        ensures buf { self.new.buf ≡ self.old.buf }
        ensures stands { StayLinesAt conn.job self.old.lines.connections
            self.new.lines.connections self.old.jobs.slots.items self.new.jobs.slots.items }
        ensures over { SameOver self.old.jobs.slots.items self.new.jobs.slots.items }
    {
        if !self.lines.was_begun(conn) {
            return Ok(());
        }
        match self.jobs.hand_out(conn.job as usize, conn.chan) {
            Some(bytes) => self.lines.queue(conn, bytes),
            None => Ok(()),
        }
    }

    // Tells each job how many of its bytes were taken.
    fn tell_taken(&mut self)
        ensures lines { self.new.lines ≡ self.old.lines }
        ensures buf { self.new.buf ≡ self.old.buf }
        ensures stands { StayAll self.old.jobs.slots.items self.new.jobs.slots.items }
        ensures over { SameOver self.old.jobs.slots.items self.new.jobs.slots.items }
        ensures taken { AreTaken self.new.lines.connections self.new.jobs.slots.items }
    {
        for number in 0..self.jobs.len() {
            self.tell_taken_of(number as u8);
        }
    }

    fn tell_taken_of(&mut self, job: u8)
        requires { job < 16 }
        ensures lines { self.new.lines ≡ self.old.lines }
        ensures buf { self.new.buf ≡ self.old.buf }
        ensures stands { StayAll self.old.jobs.slots.items self.new.jobs.slots.items }
        ensures over { SameOver self.old.jobs.slots.items self.new.jobs.slots.items }
        ensures others { KeepsOthers job self.old.jobs.slots.items self.new.jobs.slots.items }
        ensures size { length self.new.jobs.slots.items ≡ length self.old.jobs.slots.items }
        ensures taken { IsTakenOn Iopub job self.new.lines.connections self.new.jobs.slots.items }
    {
        for chan in [Chan::Shell, Chan::Control, Chan::Heart] {
            self.tell_taken_on(Conn { job, chan });
        }
        // IOPub comes last, so that its count is the one that stands afterwards.
        self.tell_taken_on(Conn {
            job,
            chan: Chan::Iopub,
        });
    }

    fn tell_taken_on(&mut self, conn: Conn)
        requires { conn.job < 16 }
        ensures lines { self.new.lines ≡ self.old.lines }
        ensures buf { self.new.buf ≡ self.old.buf }
        ensures stands { StayAll self.old.jobs.slots.items self.new.jobs.slots.items }
        ensures over { SameOver self.old.jobs.slots.items self.new.jobs.slots.items }
        ensures others { KeepsOthers conn.job self.old.jobs.slots.items self.new.jobs.slots.items }
        ensures size { length self.new.jobs.slots.items ≡ length self.old.jobs.slots.items }
        ensures taken { IsTakenOn conn.chan conn.job self.new.lines.connections
            self.new.jobs.slots.items }
    {
        let taken = self.lines.taken(conn);
        self.jobs.on_taken(conn.job as usize, conn.chan, taken);
    }

    // Ends and leaves what a fault ends: the fault of one job ends no other. Whether a job may go on.
    fn on_fault<W: World>(&mut self, w: &mut W, fault: Fault) -> Result<bool, NoMemory>
        requires { LeftBy fault self.old.lines.connections }
        ensures goes { result ≡ Ok true → goes_on fault ≡ true }
        ensures left { IsKept self.old.lines.connections self.new.lines.connections }
        ensures sound { result ≡ Ok true → IsSound self.new.lines.connections }
        ensures linked { result ≡ Ok true → open_of self.new.lines < open_of self.old.lines }
        ensures buf { self.new.buf ≡ self.old.buf }
        ensures stands { KeepsLinesIf (IsFaultOf fault) W.journal W.counts w.old w.new owed.none
            (after result owed.none) self.old.lines.connections self.new.lines.connections
            self.old.jobs.slots.items self.new.jobs.slots.items }
        ensures over { result ≡ Ok true → NoneOver self.new.jobs.slots.items }
        ensures ended { result ≡ Ok false → AllEnded self.new.jobs.slots.items }
    {
        match fault {
            Fault::OfJob(job) => {
                self.lose_one(w, job)?;
                self.leave_over(w)?;
                Ok(true)
            }
            Fault::OfAll => {
                self.jobs.lose_all()?;
                self.leave_all(w)?;
                Ok(false)
            }
            Fault::Spent => {
                self.jobs.spend_all()?;
                self.leave_all(w)?;
                Ok(false)
            }
        }
    }

    // The jobs for which a last look is to be made.
    fn looks(&self) -> [bool; 16]
        ensures { AreLooksBelow 16 self.now.jobs.slots.items result }
    {
        let mut looks = [false; 16];
        for number in 0..16usize {
            looks[number] = self.jobs.wants_look(number);
        }
        looks
    }

    fn look<W: World>(&mut self, w: &mut W, looks: [bool; 16]) -> Result<bool, NoMemory>
        requires drained { IsDrained self.old.lines.connections }
        requires offered { IsOffered self.old.lines.connections }
        requires sound { IsSound self.old.lines.connections }
        requires room { 0 < length self.old.buf.items }
        ensures drained { result ≡ Ok true → IsDrained self.new.lines.connections }
        ensures sound { result ≡ Ok true → IsSound self.new.lines.connections }
        ensures room { 0 < length self.new.buf.items }
        ensures budget { result ≡ Ok true → budget self.new.lines < budget self.old.lines }
        ensures stands { NoneOver self.old.jobs.slots.items →
            AreTaken self.old.lines.connections self.old.jobs.slots.items →
            KeepsWaiting W.journal W.counts w.old w.new (after result owed.none) self.old.lines
            self.new.lines self.old.jobs.slots.items self.new.jobs.slots.items }
        ensures left { waits_of self.new.lines ≤ waits_of self.old.lines }
        ensures over { result ≡ Ok true → NoneOver self.new.jobs.slots.items }
        ensures ended { result ≡ Ok false → AllEnded self.new.jobs.slots.items }
    {
        match self.lines.look(w, looks) {
            Ok(ends) => {
                self.jobs.on_ends(&ends);
                self.jobs.on_waited(&looks);
                self.read_all(w)?;
                self.tell_looked(w, &looks)?;
                Ok(true)
            }
            Err(fault) => self.on_fault(w, fault),
        }
    }

    fn wait<W: World>(&mut self, w: &mut W) -> Result<bool, NoMemory>
        requires drained { IsDrained self.old.lines.connections }
        requires offered { IsOffered self.old.lines.connections }
        requires sound { IsSound self.old.lines.connections }
        requires room { 0 < length self.old.buf.items }
        ensures drained { result ≡ Ok true → IsDrained self.new.lines.connections }
        ensures sound { result ≡ Ok true → IsSound self.new.lines.connections }
        ensures room { 0 < length self.new.buf.items }
        ensures budget { result ≡ Ok true → budget self.new.lines < budget self.old.lines }
        ensures stands { NoneOver self.old.jobs.slots.items →
            AreTaken self.old.lines.connections self.old.jobs.slots.items →
            NoneWantsLook self.old.jobs.slots.items →
            KeepsWaiting W.journal W.counts w.old w.new (after result owed.none) self.old.lines
            self.new.lines self.old.jobs.slots.items self.new.jobs.slots.items }
        ensures left { waits_of self.new.lines ≤ waits_of self.old.lines }
        ensures over { result ≡ Ok true → NoneOver self.new.jobs.slots.items }
        ensures ended { result ≡ Ok false → AllEnded self.new.jobs.slots.items }
    {
        let due = self.jobs.due();
        match self.lines.turn(w, due) {
            Ok(ms) => {
                self.tell_moments(w, ms)?;
                self.read_all(w)?;
                Ok(true)
            }
            Err(fault) => self.on_fault(w, fault),
        }
    }

    // Tells each job the clock. One that ends by it is left before the next is told.
    fn tell_moments<W: World>(&mut self, w: &mut W, ms: u64) -> Result<(), NoMemory>
        requires { ms < 2 ^ 47 }
        ensures left { IsKept self.old.lines.connections self.new.lines.connections }
        ensures buf { self.new.buf ≡ self.old.buf }
        ensures stands { KeepsLines W.journal W.counts w.old w.new (owed.turn_clock ms 0)
            (after result owed.none) self.old.lines.connections self.new.lines.connections
            self.old.jobs.slots.items self.new.jobs.slots.items }
        ensures over { OnOk result (NoneOver self.new.jobs.slots.items) }
    {
        for number in 0..16u8 {
            self.jobs.on_moment(w, number as usize, ms)?;
            self.leave_where(w, number)?;
        }
        Ok(())
    }

    // Tells each of these jobs that the reads of its last look are done. One that ends by it is left
    // before the next is told.
    fn tell_looked<W: World>(&mut self, w: &mut W, looks: &[bool; 16]) -> Result<(), NoMemory>
        ensures left { IsKept self.old.lines.connections self.new.lines.connections }
        ensures buf { self.new.buf ≡ self.old.buf }
        ensures stands { KeepsLines W.journal W.counts w.old w.new owed.none
            (after result owed.none) self.old.lines.connections self.new.lines.connections
            self.old.jobs.slots.items self.new.jobs.slots.items }
        ensures over { OnOk result (NoneOver self.new.jobs.slots.items) }
    {
        for number in 0..16u8 {
            let was_made = looks[number as usize];
            self.jobs.look_where(w, number as usize, was_made)?;
            self.leave_where(w, number)?;
        }
        Ok(())
    }

    // Reads what the wait reported.
    fn read_all<W: World>(&mut self, w: &mut W) -> Result<(), NoMemory>
        requires room { 0 < length self.old.buf.items }
        requires sound { IsSound self.old.lines.connections }
        ensures drained { OnOk result (IsDrained self.new.lines.connections) }
        ensures sound { OnOk result (IsSound self.new.lines.connections) }
        ensures room { 0 < length self.new.buf.items }
        ensures linked { open_of self.new.lines ≤ open_of self.old.lines }
        ensures stands { NoneOver self.old.jobs.slots.items →
            KeepsLines W.journal W.counts w.old w.new owed.none (after result owed.none)
            self.old.lines.connections self.new.lines.connections self.old.jobs.slots.items
            self.new.jobs.slots.items }
        ensures left { waits_of self.new.lines ≡ waits_of self.old.lines }
        ensures over { OnOk result (NoneOver self.old.jobs.slots.items →
            NoneOver self.new.jobs.slots.items) }
    {
        loop {
            match self.read_one(w)? {
                Reading::GoesOn => {}
                Reading::Done => return Ok(()),
            }
        }
    }

    // Reads one connection. What its peer does changes its own job alone, which is left where it has
    // ended by it.
    fn read_one<W: World>(&mut self, w: &mut W) -> Result<Reading, NoMemory>
        requires room { 0 < length self.old.buf.items }
        requires sound { IsSound self.old.lines.connections }
        ensures drained { result ≡ Ok reading.Done → IsDrained self.new.lines.connections }
        ensures sound { OnOk result (IsSound self.new.lines.connections) }
        ensures room { 0 < length self.new.buf.items }
        ensures linked { open_of self.new.lines ≤ open_of self.old.lines }
        ensures stands { NoneOver self.old.jobs.slots.items →
            KeepsLines W.journal W.counts w.old w.new owed.none (after result owed.none)
            self.old.lines.connections self.new.lines.connections self.old.jobs.slots.items
            self.new.jobs.slots.items }
        ensures left { waits_of self.new.lines ≡ waits_of self.old.lines }
        ensures reads { result ≡ Ok reading.GoesOn →
            reads_of self.new.lines < reads_of self.old.lines }
        ensures one { OnOk result
            (ChangesOne self.old.jobs.slots.items self.new.jobs.slots.items) }
        ensures over { OnOk result (NoneOver self.old.jobs.slots.items →
            NoneOver self.new.jobs.slots.items) }
    {
        match self.lines.next(w, self.buf.as_mut_slice()) {
            Ok(Next::Piece { conn, n }) => {
                self.hear(w, conn, n)?;
                Ok(Reading::GoesOn)
            }
            Ok(Next::Ended(conn)) => {
                self.jobs.on_ended(conn.job as usize);
                self.leave_where(w, conn.job)?;
                Ok(Reading::GoesOn)
            }
            Ok(Next::Refused(_)) => Ok(Reading::GoesOn),
            Ok(Next::Quiet) => Ok(Reading::Done),
            Err(job) => {
                self.lose_one(w, job)?;
                Ok(Reading::GoesOn)
            }
        }
    }

    // Tells a job what came on a connection of it. Where it has ended by that, it is left.
    fn hear<W: World>(&mut self, w: &mut W, conn: Conn, n: usize) -> Result<(), NoMemory>
        ensures left { IsKept self.old.lines.connections self.new.lines.connections }
        ensures buf { self.new.buf ≡ self.old.buf }
        ensures stands { KeepsLines W.journal W.counts w.old w.new
            (owed.piece conn (take n self.old.buf.items)) (after result owed.none)
            self.old.lines.connections self.new.lines.connections self.old.jobs.slots.items
            self.new.jobs.slots.items }
        ensures others { KeepsOthers conn.job self.old.jobs.slots.items self.new.jobs.slots.items }
        ensures over { OnOk result
            (is_slot_over (slice_get self.new.jobs.slots.items conn.job) ≡ false) }
    {
        let piece = &self.buf[..n.min(self.buf.len())];
        self.jobs.on_piece(w, conn.job as usize, conn.chan, piece)?;
        self.leave_where(w, conn.job)
    }
}
