//! `Lines`, the connections of the jobs of a run.
ghost use Rattle.std.specs.Prelude.{◌≡◌, ◌<◌, Some, length};
ghost use Rattle.world.specs.declared.conn.Conn.{Conn as Wired};
ghost use Rattle.world.specs.Places.{place_of};
ghost use Rattle.ready_loop.specs.Offers.{IsOfConn};
ghost use Rattle.batch_run.specs.Kept.{AreBegun, NoPlaces, mark_job};

use crate::fault::Fault;
use crate::wanted::Wanted;
use jtext::{Bytes, NoMemory};
use ready_loop::{Loop, LoopFault, Next, place_at};
use std::alloc::Global;
use world::{Conn, World};

/// The connections of the jobs, and what is known of them beside the loop. Where a call of one
/// failed, its job is named, and is to be left before the next call.
#[derive(Drop)]
pub(crate) struct Lines {
    pub connections: Loop,
    /// The places of the connections that were begun.
    pub begun: [bool; 64],
    ghost begun_are: { AreBegun begun connections },
}

impl Lines {
    ghost use Rattle.std.specs.Prelude.{◌≡◌, ◌<◌, ◌≤◌, ◌+◌, ◌^◌, ℕ, Some, Ok, IfOk, IfErr, OnOk, slice_get, true, false, length};
    ghost use Rattle.ready_loop.specs.declared.next.Next.TheVariants.{Quiet};
    ghost use Rattle.ready_loop.specs.States.{IsDrained, IsOffered, IsSound, begun_at, waits_left};
    ghost use Rattle.batch_run.specs.Kept.{FaultCause, IsBroken, IsFreshFrom, IsLeft, IsSoundBut, LeftBy, StaysBegun};
    ghost use Rattle.batch_run.specs.Kept.{goes_on};
    ghost use Rattle.world.specs.Counts.{Rose};
    ghost use Rattle.batch_run.specs.Lines.{open_of, reads_of, waits_of};
    ghost use Rattle.std.specs.Prelude.{List, Option as Maybe};
    ghost use Rattle.words.specs.declared.ask.Ask.{Ask};
    ghost use Rattle.world.specs.declared.entry.Entry.{Entry};
    ghost use Rattle.world.specs.Counts.{Counts};
    ghost use Rattle.ready_loop.specs.History.{History};
    ghost use Rattle.ready_loop.specs.Standing.{AllShut, StandsFor, put_at};
    ghost use Rattle.batch_run.specs.declared.slot.Slot.{Slot};
    ghost use Rattle.batch_run.specs.Owed.{AreClosed, Owed};
    ghost use Rattle.batch_run.specs.Stands.{AllStand, Outset, served_by};
    ghost use Rattle.batch_run.specs.Stands.{KeepsBegun, KeepsEach, KeepsLooking};
    ghost use Rattle.batch_run.specs.Stands.{KeepsReading, KeepsTurning};

    /// No connection, and so many waits.
    pub(crate) fn new(alloc: Global, turns: u64) -> Result<Lines, NoMemory>
        // They stand for each journal in which every connection is closed.
        ensures stands { IfOk result (λ l. (journal : List Entry) → AllShut journal →
            (h : History) × StandsFor l.connections h journal) }
        ensures drained { IfOk result (λ l. IsDrained l.connections) }
        ensures sound { IfOk result (λ l. IsSound l.connections) }
        ensures fresh { IfOk result (λ l. IsFreshFrom 0 l.connections) }
        ensures left { IfOk result (λ l. waits_of l ≡ turns) }
    {
        Ok(Lines {
            connections: Loop::new(alloc, turns)?,
            begun: no_places(),
        })
    }

    /// Begins the connections of a job. Where one fails, the job is named.
    pub(crate) fn begin<W: World>(&mut self, w: &mut W, job: u8, wanted: Wanted) -> Result<(), u8>
        requires job { job < 16 }
        requires fresh { IsFreshFrom job self.old.connections }
        requires sound { IsSound self.old.connections }
        ensures stands { KeepsBegun W.journal W.counts w.old w.new result job wanted.ports
            self.old.connections self.new.connections }
        ensures fresh { IsFreshFrom (job + 1) self.new.connections }
        ensures waits { waits_left self.new.connections ≡ waits_left self.old.connections }
        ensures drained { IsDrained self.old.connections → IsDrained self.new.connections }
        ensures sound { OnOk result (IsSound self.new.connections) }
        ensures but { IfErr result (λ _. IsSoundBut job self.new.connections) }
        ensures cause { IfErr result (λ _. Rose (W.counts w.old).net (W.counts w.new).net) }
    {
        match self.connections.begin(w, job, wanted.ports, wanted.heart) {
            Ok(()) => {
                mark(&mut self.begun, job, wanted.heart);
                Ok(())
            }
            Err(fault) => Err(job_of(fault)),
        }
    }

    /// Whether this connection was begun.
    pub(crate) fn was_begun(&self, conn: Conn) -> bool
        requires { conn.job < 16 }
        ensures { slice_get self.now.begun (place_of conn) ≡ Some result }
    {
        self.begun[place_at(conn)]
    }

    /// Queues bytes on a connection that was begun.
    pub(crate) fn queue(&mut self, conn: Conn, bytes: Bytes) -> Result<(), NoMemory>
        requires job { conn.job < 16 }
        requires begun { slice_get self.old.begun (place_of conn) ≡ Some true }
        ensures goes { (asks : ℕ → Maybe Ask) (start : Maybe (List Entry)) (from : Outset)
            (o : Owed) (slots : List Slot) (journal : Maybe (List Entry)) (counts : Counts) →
            AllStand asks start (served_by o self.old.connections from) slots journal counts →
            AllStand asks start (served_by o self.new.connections from) slots journal counts }
        ensures stays { IsLeft conn.job self.old.connections self.new.connections }
        ensures begun { StaysBegun self.old.connections self.new.connections }
    {
        self.connections.queue(conn, bytes)
    }

    /// How many bytes of a connection were taken.
    pub(crate) fn taken(&self, conn: Conn) -> u64
        requires { conn.job < 16 }
        ensures { (h : History) (journal : List Entry) →
            StandsFor self.now.connections h journal →
            result ≡ length (put_at h journal (place_of conn)) }
    {
        self.connections.taken(conn)
    }

    /// Puts out what is queued, and names the connections that were found ended.
    pub(crate) fn offer<W: World>(&mut self, w: &mut W) -> Result<[bool; 64], u8>
        requires sound { IsSound self.old.connections }
        ensures stands { KeepsEach W.journal W.counts w.old w.new self.old.connections
            self.new.connections }
        ensures left { waits_of self.new ≡ waits_of self.old }
        ensures linked { open_of self.new ≡ open_of self.old }
        ensures offered { OnOk result (IsOffered self.new.connections) }
        ensures drained { IsDrained self.old.connections → IsDrained self.new.connections }
        ensures sound { OnOk result (IsSound self.new.connections) }
        ensures broken { IfErr result (λ job. IsBroken job self.new.connections) }
        ensures cause { IfErr result (λ _. Rose (W.counts w.old).net (W.counts w.new).net) }
    {
        match self.connections.offer(w) {
            Ok(ends) => Ok(ends),
            Err(fault) => Err(job_of(fault)),
        }
    }

    /// A last look for these jobs.
    pub(crate) fn look<W: World>(
        &mut self,
        w: &mut W,
        looks: [bool; 16],
    ) -> Result<[bool; 64], Fault>
        requires drained { IsDrained self.old.connections }
        requires offered { IsOffered self.old.connections }
        requires sound { IsSound self.old.connections }
        ensures stands { KeepsLooking W.journal W.counts w.old w.new self.old self.new }
        ensures left { waits_of self.new ≤ waits_of self.old }
        ensures falls { OnOk result (waits_of self.new < waits_of self.old) }
        ensures linked { open_of self.new ≡ open_of self.old }
        ensures drained { IfErr result (λ f. goes_on f ≡ true → IsDrained self.new.connections) }
        ensures sound { OnOk result (IsSound self.new.connections) }
        ensures by { IfErr result (λ f. LeftBy f self.new.connections) }
        ensures cause { IfErr result
            (FaultCause (W.counts w.old) (W.counts w.new) (waits_of self.old ≡ 0)) }
    {
        match self.connections.look(w, looks) {
            Ok(ends) => Ok(ends),
            Err(LoopFault::NetFault { conn: Some(conn) }) => Err(Fault::OfJob(conn.job)),
            Err(LoopFault::NetFault { conn: None }) => Err(Fault::OfAll),
            Err(LoopFault::Spent) => Err(Fault::Spent),
        }
    }

    /// Waits once, at most up to this moment, and gives the clock.
    pub(crate) fn turn<W: World>(&mut self, w: &mut W, due: Option<u64>) -> Result<u64, Fault>
        requires drained { IsDrained self.old.connections }
        requires offered { IsOffered self.old.connections }
        requires sound { IsSound self.old.connections }
        ensures stands { KeepsTurning W.journal W.counts w.old w.new result self.old self.new }
        ensures left { waits_of self.new ≤ waits_of self.old }
        ensures falls { OnOk result (waits_of self.new < waits_of self.old) }
        ensures linked { open_of self.new ≡ open_of self.old }
        ensures ends { IfErr result (λ f. goes_on f ≡ false) }
        ensures sound { IsSound self.new.connections }
        ensures bound { IfOk result (λ ms. ms < 2 ^ 47) }
        ensures cause { IfErr result
            (FaultCause (W.counts w.old) (W.counts w.new) (waits_of self.old ≡ 0)) }
    {
        // The clock never goes back.
        let _before = w.last();
        match self.connections.turn(w, due) {
            // The moment that the turn gave.
            Ok(_) => Ok(w.last()),
            Err(LoopFault::NetFault { .. }) => Err(Fault::OfAll),
            Err(LoopFault::Spent) => Err(Fault::Spent),
        }
    }

    /// Reads one connection of those that were reported. Where that fails, its job is named.
    pub(crate) fn next<W: World>(&mut self, w: &mut W, buf: &mut [u8]) -> Result<Next, u8>
        requires room { 0 < length buf.old }
        requires sound { IsSound self.old.connections }
        ensures stands { KeepsReading W.journal W.counts w.old w.new result buf.new
            self.old.connections self.new.connections }
        ensures left { waits_of self.new ≡ waits_of self.old }
        ensures linked { open_of self.new ≡ open_of self.old }
        ensures quiet { result ≡ Ok Quiet → IsDrained self.new.connections }
        ensures reads { (result ≡ Ok Quiet → ⊥) → reads_of self.new < reads_of self.old }
        ensures sound { OnOk result (IsSound self.new.connections) }
        ensures broken { IfErr result (λ job. IsBroken job self.new.connections) }
        ensures cause { IfErr result (λ _. Rose (W.counts w.old).net (W.counts w.new).net) }
    {
        match self.connections.next(w, buf) {
            Ok(next) => Ok(next),
            Err(fault) => Err(job_of(fault)),
        }
    }

    /// Offers what is queued on the connections of a job that has ended, and closes them. That not
    /// all could be written changes nothing any more.
    pub(crate) fn leave<W: World>(&mut self, w: &mut W, job: u8)
        requires { job < 16 }
        ensures stands { KeepsEach W.journal W.counts w.old w.new self.old.connections
            self.new.connections }
        ensures closed { AreClosed self.new.connections job }
        ensures left { IsLeft job self.old.connections self.new.connections }
        ensures sound { IsSoundBut job self.old.connections → IsSound self.new.connections }
        ensures linked { (conn : Wired) → conn.job ≡ job →
            begun_at self.old.connections (place_of conn) ≡ true →
            open_of self.new < open_of self.old }
    {
        let _ = self.connections.offer_job(w, job);
        self.connections.close(w, job);
    }

    /// Closes the connections of a job.
    pub(crate) fn close<W: World>(&mut self, w: &mut W, job: u8)
        requires { job < 16 }
        ensures stands { KeepsEach W.journal W.counts w.old w.new self.old.connections
            self.new.connections }
        ensures closed { AreClosed self.new.connections job }
        ensures left { IsLeft job self.old.connections self.new.connections }
    {
        self.connections.close(w, job);
    }
}

/// The job whose connection a fault names.
fn job_of(fault: LoopFault) -> u8
    requires { IsOfConn fault }
    ensures { (conn : Wired) → fault ≡ LoopFault.NetFault (Some conn) → result ≡ conn.job }
{
    match fault {
        LoopFault::NetFault { conn: Some(conn) } => conn.job,
        LoopFault::NetFault { conn: None } => unreachable!(),
        LoopFault::Spent => unreachable!(),
    }
}

/// No place.
fn no_places() -> [bool; 64]
    ensures none { NoPlaces result }
    ensures size { length result ≡ 64 }
{
    [false; 64]
}

/// The connections of a job were begun.
fn mark(begun: &mut [bool; 64], job: u8, heart: bool)
    requires { job < 16 }
    ensures begun { begun.new ≡ mark_job job heart begun.old }
    ensures size { length begun.old ≡ 64 }
{
    let first = 4 * job as usize;
    begun[first] = true;
    begun[first + 1] = true;
    begun[first + 2] = true;
    begun[first + 3] = heart;
}
