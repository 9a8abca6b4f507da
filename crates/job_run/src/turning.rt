//! What the clock brings.
ghost use Rattle.std.specs.Prelude.{◌≡◌, ◌<◌, ◌^◌, IfOk};
ghost use Rattle.job_run.specs.Pings.{ping_message};

use crate::execution::Execution;
use cell_core::Event;
use jcontent::empty_content;
use job_end::End;
use jtext::{Bytes, NoMemory};
use std::alloc::Global;
use world::{Chan, Disk, Say};
use zmtp_wire::Parts;

impl Execution {
    ghost use Rattle.std.specs.Prelude.{◌≡◌, ℕ, ◌≤◌, true, IfErr, OnOk};
    ghost use Rattle.cell_core.specs.StandsFor.{task_of};
    ghost use Rattle.job_run.specs.Held.{Holds, IsCalm, IsAsked};
    ghost use Rattle.job_run.specs.Told.{EndsBy};
    ghost use Rattle.job_run.specs.Counted.{IsCounted, IsCountedOn};
    ghost use Rattle.cell_core.specs.declared.act.Act.TheVariants.{Nothing};
    ghost use Rattle.job_saves.specs.Course.{stays_open};
    ghost use Rattle.job_saves.specs.Left.{OutputAt};
    ghost use Rattle.job_run.specs.Steps.{Proceeds, OnlySaves};
    ghost use Rattle.std.specs.Prelude.{List};
    ghost use Rattle.world.specs.declared.entry.Entry.{Entry};
    ghost use Rattle.world.specs.Moments.{Told};
    ghost use Rattle.job_journal.specs.Ended.{IsWhole};
    ghost use Rattle.job_journal.specs.Plot.{Plot, facts};
    ghost use Rattle.job_run.specs.Standing.{GoesBy, HasTurned, HearsClock, IsTurned};
    ghost use Rattle.job_run.specs.Standing.{KeepsClock, PassesBy, Stands, StandsOrEnds};

    /// The clock was read in a turn, and the child was found ended or not.
    pub(crate) fn on_moment<W: Disk + Say>(
        &mut self,
        w: &mut W,
        ms: u64,
        has_ended: bool,
    ) -> Result<(), End>
        requires early { ms < 2 ^ 47 }
        requires holds { Holds self.old }
        requires calm { IsCalm self.old }
        ensures goes { Proceeds W.journal W.counts w.old w.new self.old self.new Nothing result }
        // Where the clock was just read with this moment, and the execution stood for the journal
        // before, it stands for the journal again.
        ensures stands { (p : Plot) (number : ℕ) → Told (W.journal w.old) (W.journal w.new)
            (λ before after. IsTurned p number self.old ms before →
            StandsOrEnds p number self.new result after) }
    {
        self.turn_clock(ms);
        match self.hear_clock(w) {
            Ok(()) => self.lose_or_ask(w, ms, has_ended),
            Err(end) => Err(end),
        }
    }

    // The kernel is gone, where it is; it is asked and pinged, where that is due.
    fn lose_or_ask<W: Disk + Say>(&mut self, w: &mut W, ms: u64, has_ended: bool) -> Result<(), End>
        requires holds { Holds self.old }
        requires calm { IsCalm self.old }
        ensures goes { Proceeds W.journal W.counts w.old w.new self.old self.new Nothing result }
        ensures stands { (p : Plot) (number : ℕ) → Told (W.journal w.old) (W.journal w.new)
            (λ before after. HasTurned p number self.old before →
            StandsOrEnds p number self.new result after) }
    {
        let is_lost = self.is_lost(ms, has_ended);
        match self.lose(w, is_lost) {
            Ok(()) => self.ask_or_end(),
            Err(end) => Err(end),
        }
    }

    fn is_lost(&self, ms: u64, has_ended: bool) -> bool {
        has_ended || self.is_silent(ms)
    }

    // Asks and pings the kernel, where that is due, or ends the job for want of memory.
    fn ask_or_end(&mut self) -> Result<(), End>
        requires { self.old.clock < 2 ^ 47 }
        ensures asked { IsAsked self.old self.new }
        ensures saved { stays_open result ≡ true }
        ensures own { IfErr result (EndsBy (task_of self.new.core)) }
        ensures counts { (n : OutputAt) → IsCounted self.old Nothing n →
            IsCountedOn self.new result n }
        ensures stands { (p : Plot) (number : ℕ) (now : List Entry) →
            HasTurned p number self.old now → StandsOrEnds p number self.new result now }
    {
        match self.ask_and_ping() {
            Ok(()) => Ok(()),
            Err(NoMemory) => Err(End::NoMemory),
        }
    }

    // The clock was read. It never falls.
    pub(crate) fn turn_clock(&mut self, ms: u64)
        requires early { ms < 2 ^ 47 }
        requires holds { Holds self.old }
        ensures holds { Holds self.new }
        ensures core { self.new.core ≡ self.old.core }
        ensures later { self.old.clock ≤ self.new.clock }
        ensures broken { self.new.broken ≡ self.old.broken }
        ensures terms { self.new.terms ≡ self.old.terms }
        ensures book { self.new.book ≡ self.old.book }
        ensures session { self.new.session ≡ self.old.session }
        ensures rest { self.new ≡ record self.old { clock = self.new.clock } }
        ensures turns { self.old.clock ≤ ms → self.new.clock ≡ ms }
    {
        if ms <= self.clock {
            return;
        }
        self.clock = ms;
    }

    // Tells the core of the clock, unless a last look comes first.
    pub(crate) fn hear_clock<W: Disk + Say>(&mut self, w: &mut W) -> Result<(), End>
        requires holds { Holds self.old }
        requires calm { IsCalm self.old }
        ensures goes { Proceeds W.journal W.counts w.old w.new self.old self.new Nothing result }
        ensures saves { OnlySaves W.journal w.old w.new self.old.book }
        ensures key { OnOk result (self.new.session.key ≡ self.old.session.key) }
        ensures name { OnOk result (self.new.session.name ≡ self.old.session.name) }
        ensures passes { (p : Plot) (number : ℕ) → Told (W.journal w.old) (W.journal w.new)
            (PassesBy p number self.old self.new result) }
        ensures knows { HearsClock self.old self.new result }
    {
        if self.core.wants_look() {
            return Ok(());
        }
        self.step(w, Event::Moment(self.clock))
    }

    /// A connection has ended.
    pub(crate) fn on_ended(&mut self)
        requires holds { Holds self.old }
        requires calm { IsCalm self.old }
        ensures holds { Holds self.new }
        ensures calm { IsCalm self.new }
        ensures book { self.new.book ≡ self.old.book }
        ensures terms { self.new.terms ≡ self.old.terms }
        ensures task { task_of self.new.core ≡ task_of self.old.core }
        ensures counts { (n : OutputAt) → IsCounted self.old Nothing n →
            IsCounted self.new Nothing n }
        ensures rest { self.new ≡ record self.old { core = self.new.core } }
        // Whatever the execution stood for, it stands for with its core told.
        ensures stands { (p : Plot) (number clock : ℕ) (now : List Entry) →
            Stands p number (record self.old { clock = clock }) now →
            GoesBy p number clock self.old self.new now }
    {
        self.core.step(Event::Lost);
    }

    // The kernel is gone, where it is.
    fn lose<W: Disk + Say>(&mut self, w: &mut W, is_lost: bool) -> Result<(), End>
        requires holds { Holds self.old }
        requires calm { IsCalm self.old }
        ensures goes { Proceeds W.journal W.counts w.old w.new self.old self.new Nothing result }
        ensures passes { (p : Plot) (number : ℕ) → Told (W.journal w.old) (W.journal w.new)
            (PassesBy p number self.old self.new result) }
        ensures knows { KeepsClock self.old self.new result }
    {
        if is_lost {
            self.step(w, Event::Lost)
        } else {
            Ok(())
        }
    }

    // Asks and pings the kernel, where that is due.
    fn ask_and_ping(&mut self) -> Result<(), NoMemory>
        requires { self.old.clock < 2 ^ 47 }
        ensures asked { IsAsked self.old self.new }
        ensures stands { OnOk result ((p : Plot) (number : ℕ) (now : List Entry) →
            HasTurned p number self.old now → Stands p number self.new now) }
    {
        self.ask()?;
        self.ping()
    }

    fn is_silent(&self, ms: u64) -> bool {
        self.terms.heartbeat && self.pings.is_lost(ms, self.lines.of(Chan::Heart).taken())
    }

    // Asks the kernel whether it is ready, where that is due.
    fn ask(&mut self) -> Result<(), NoMemory>
        requires { self.old.clock < 2 ^ 47 }
        ensures asked { IsAsked self.old self.new }
        ensures stands { OnOk result ((p : Plot) (number : ℕ) (now : List Entry) →
            HasTurned p number self.old now → Stands p number self.new now) }
    {
        if !self.asking.is_due(self.lines.can_ask(), self.clock) {
            return Ok(());
        }
        let content = empty_content(self.alloc);
        self.say(Chan::Shell, "kernel_info_request", content)?;
        let id = self.session.id(self.session.made())?;
        self.asking.on_request(id, self.clock)
    }

    fn ping(&mut self) -> Result<(), NoMemory>
        requires { self.old.clock < 2 ^ 47 }
        ensures asked { IsAsked self.old self.new }
        ensures stands { (p : Plot) (number : ℕ) (now : List Entry) →
            Stands p number self.old now → OnOk result (Stands p number self.new now) }
    {
        if !self.pings.is_due(self.can_ping(), self.clock) {
            return Ok(());
        }
        let parts = ping_parts(self.alloc)?;
        self.lines.send(Chan::Heart, &parts)?;
        let end = self.lines.of(Chan::Heart).due();
        self.pings.on_ping(self.clock, end);
        Ok(())
    }

    /// A last look is done, and a connection may have ended in its reads.
    pub(crate) fn on_looked<W: Disk + Say>(&mut self, w: &mut W, late: bool) -> Result<(), End>
        requires holds { Holds self.old }
        requires calm { IsCalm self.old }
        ensures goes { Proceeds W.journal W.counts w.old w.new self.old self.new Nothing result }
        // Where the execution stood for the journal and no stream was broken, it stands for the
        // journal again.
        ensures stands { (p : Plot) (number : ℕ) → Told (W.journal w.old) (W.journal w.new)
            (λ before after. Stands p number self.old before → IsWhole (facts p) before →
            StandsOrEnds p number self.new result after) }
    {
        self.step(w, Event::Looked)?;
        self.lose(w, late)
    }
}

// A ping is the one frame `ping`.
fn ping_parts(alloc: Global) -> Result<Parts, NoMemory>
    ensures { IfOk result (λ parts. parts ≡ ping_message) }
{
    let mut parts = Parts::new(alloc);
    parts.push(Bytes::of(alloc, b"ping")?)?;
    Ok(parts)
}
