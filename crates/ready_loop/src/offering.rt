//! Beginning refused connections again, and offering what is queued.
ghost use Rattle.std.specs.Prelude.{◌≡◌, ◌<◌, ◌≤◌, ◌≢◌, ◌↔◌, ℕ, [], false, length, slice_get, IfErr, IsErr, IsTrue, IsSomeAnd, OnOk, Ok, Err, Some, true};
ghost use Rattle.world.specs.Counts.{CountsBy, NetCause};
ghost use Rattle.world.specs.Places.{place_of};
ghost use Rattle.world.specs.declared.entry.Entry.{Entry};
ghost use Rattle.ready_loop.specs.declared.link.Link.{Link};
ghost use Rattle.ready_loop.specs.Link.{MayWrite, IsToBegin};
ghost use Rattle.ready_loop.specs.History.{no_change, after_names};
ghost use Rattle.ready_loop.specs.Begins.{IsJobOffered, OnlyOfJob};
ghost use Rattle.ready_loop.specs.Offers.{JobMoment, OfferMoment, OfferAt, FaultCame, ConnectCame, PutCame};
ghost use Rattle.ready_loop.specs.Offers.{Names, BeginsAt, Connects, IsOfConn};
ghost use Rattle.ready_loop.specs.Queues.{rest_at};
ghost use Rattle.ready_loop.specs.Standing.{Goes, CallsOfLoop};
ghost use Rattle.world.specs.Told.{Between};
ghost use Rattle.ready_loop.specs.States.{IsDrained, IsOffered, IsCalm, IsCalmAt, FailsOnly};
ghost use Rattle.ready_loop.specs.States.{IsWell, reads_left, IsOfferedAt, AllOfferedBelow, OnlyAt, load, failed_at};
ghost use Rattle.ready_loop.specs.States.{failed_connect, failed_put, found_at, NamesAll, IsSound, SameKnown, waits_left};
ghost use Rattle.ready_loop.specs.Wires.{ConnectsOn, ports_in};

use crate::conn_place::conn_at;
use crate::{Loop, LoopFault};
use world::{Conn, Connected, Put, Wire, World};

impl Loop {
    /// Begins the refused connections again that are due, offers what is queued to each that takes
    /// bytes until it has none or is stuck, and names the connections that a write found ended and
    /// that no earlier answer named. A fault names the connection of the failed call.
    pub fn offer<W: World>(&mut self, w: &mut W) -> Result<[bool; 64], LoopFault>
        // Each new entry begins a due connection again, or offers all that is queued on one.
        ensures goes { Between W.journal w.old w.new
            (Goes (OfferMoment false) (after_names result) self.old self.new) }
        ensures came { Between W.journal w.old w.new (λ _ after. FaultCame result after) }
        ensures fault { IfErr result IsOfConn }
        // A fault names a connection that was begun and not closed, and had not failed before.
        ensures anew { (c : Conn) → result ≡ Err (LoopFault.NetFault (Some c)) →
            IsWell self.old c }
        ensures names { Between W.journal w.old w.new (Names result self.old) }

        // Then nothing is left to be done.
        ensures offered { OnOk result (IsOffered self.new) }
        ensures calm { OnOk result (IsCalm (W.counts w.new).last self.new) }

        ensures reads { reads_left self.new ≤ reads_left self.old }
        ensures drained { IsDrained self.old → IsDrained self.new }
        ensures failed { FailsOnly result self.old self.new }
        ensures sound { OnOk result (IsSound self.old → IsSound self.new) }
        ensures known { SameKnown self.old self.new }
        ensures left { waits_left self.new ≡ waits_left self.old }
        ensures wires { ConnectsOn W.journal w.old w.new (ports_in self.new) }
        ensures ports { ports_in self.new ≡ ports_in self.old }
        ensures calls { CallsOfLoop W.journal w.old w.new }
        ensures cause { CountsBy NetCause W.counts w.old w.new (IsErr result) }
    {
        match self.offer_all(w) {
            Ok(()) => Ok(self.name_ends()),
            Err(fault) => Err(fault),
        }
    }

    /// Begins the refused connections of one job again that are due, and offers what is queued on
    /// its connections, as `offer` does for all. It names no end. A fault names the connection of the
    /// failed call.
    pub fn offer_job<W: World>(&mut self, w: &mut W, job: u8) -> Result<(), LoopFault>
        requires { job < 16 }
        // Each new entry is of a connection of this job.
        ensures goes { Between W.journal w.old w.new
            (Goes (JobMoment job) no_change self.old self.new) }
        ensures came { Between W.journal w.old w.new (λ _ after. FaultCame result after) }
        ensures fault { IfErr result IsOfConn }
        ensures own { (c : Conn) → result ≡ Err (LoopFault.NetFault (Some c)) →
            c.job ≡ job }
        ensures anew { (c : Conn) → result ≡ Err (LoopFault.NetFault (Some c)) →
            IsWell self.old c }
        // What is kept and queued of the connections of all other jobs stays.
        ensures only { OnlyOfJob job self.old self.new }
        // Then nothing is left to be done for this job.
        ensures offered { OnOk result (IsJobOffered job (W.counts w.new).last self.new) }
        ensures reads { reads_left self.new ≤ reads_left self.old }
        ensures drained { IsDrained self.old → IsDrained self.new }
        ensures failed { FailsOnly result self.old self.new }
        ensures known { SameKnown self.old self.new }
        ensures left { waits_left self.new ≡ waits_left self.old }
        ensures wires { ConnectsOn W.journal w.old w.new (ports_in self.new) }
        ensures ports { ports_in self.new ≡ ports_in self.old }
        ensures calls { CallsOfLoop W.journal w.old w.new }
        ensures cause { CountsBy NetCause W.counts w.old w.new (IsErr result) }
    {
        let first = 4 * usize::from(job);
        for place in first..first + 4 {
            self.offer_at(w, place, false)?;
        }
        Ok(())
    }

    /// Begins again what is due and offers what is queued, at each place.
    fn offer_all<W: World>(&mut self, w: &mut W) -> Result<(), LoopFault>
        ensures goes { Between W.journal w.old w.new
            (Goes (OfferMoment false) no_change self.old self.new) }
        ensures came { Between W.journal w.old w.new (λ _ after. FaultCame result after) }
        ensures fault { IfErr result IsOfConn }
        ensures anew { (c : Conn) → result ≡ Err (LoopFault.NetFault (Some c)) →
            IsWell self.old c }
        ensures reads { reads_left self.new ≤ reads_left self.old }
        ensures offered { OnOk result (AllOfferedBelow 64 (W.counts w.new).last self.new) }
        ensures drained { IsDrained self.old → IsDrained self.new }
        ensures failed { FailsOnly result self.old self.new }
        ensures known { SameKnown self.old self.new }
        ensures left { self.new.left ≡ self.old.left }
        ensures wires { ConnectsOn W.journal w.old w.new (ports_in self.new) }
        ensures ports { ports_in self.new ≡ ports_in self.old }
        ensures calls { CallsOfLoop W.journal w.old w.new }
        ensures cause { CountsBy NetCause W.counts w.old w.new (IsErr result) }
    {
        for place in 0..64usize {
            self.offer_at(w, place, false)?;
        }
        Ok(())
    }

    /// Begins the connection at a place again where that is due, and offers what is queued on it.
    pub(crate) fn offer_at<W: World>(
        &mut self,
        w: &mut W,
        place: usize,
        forced: bool,
    ) -> Result<(), LoopFault>
        requires { place < 64 }
        ensures goes { Between W.journal w.old w.new
            (Goes (OfferAt forced place) no_change self.old self.new) }
        ensures came { Between W.journal w.old w.new (λ _ after. FaultCame result after) }
        ensures fault { IfErr result IsOfConn }
        ensures anew { (c : Conn) → result ≡ Err (LoopFault.NetFault (Some c)) →
            (place_of c ≡ place) × IsWell self.old c }
        ensures reads { reads_left self.new ≤ reads_left self.old }
        ensures begins { Between W.journal w.old w.new (BeginsAt forced place self.old) }
        ensures only { OnlyAt place self.old self.new }
        ensures offered { OnOk result (IsOfferedAt place (W.counts w.new).last self.new) }
        ensures drained { IsDrained self.old → IsDrained self.new }
        ensures failed { FailsOnly result self.old self.new }
        ensures known { SameKnown self.old self.new }
        ensures wires { ConnectsOn W.journal w.old w.new (ports_in self.new) }
        ensures ports { ports_in self.new ≡ ports_in self.old }
        ensures calls { CallsOfLoop W.journal w.old w.new }
        ensures cause { CountsBy NetCause W.counts w.old w.new (IsErr result) }
    {
        let conn = conn_at(place);
        self.begin_again(w, conn, place, forced)?;
        self.write_all(w, conn, place)
    }

    /// Begins the connection at a place again where that is due.
    fn begin_again<W: World>(
        &mut self,
        w: &mut W,
        conn: Conn,
        place: usize,
        forced: bool,
    ) -> Result<(), LoopFault>
        requires place { place_of conn ≡ place }
        requires job { conn.job < 16 }
        requires within { place < 64 }
        ensures goes { Between W.journal w.old w.new
            (Goes (OfferAt forced place) no_change self.old self.new) }
        ensures came { Between W.journal w.old w.new (λ _ after. FaultCame result after) }
        ensures fault { IfErr result IsOfConn }
        ensures anew { (c : Conn) → result ≡ Err (LoopFault.NetFault (Some c)) →
            (place_of c ≡ place) × IsWell self.old c }
        ensures reads { reads_left self.new ≤ reads_left self.old }
        ensures begins { Between W.journal w.old w.new (BeginsAt forced place self.old) }
        ensures only { OnlyAt place self.old self.new }
        ensures calm { OnOk result (IsCalmAt place (W.counts w.new).last self.new) }
        ensures drained { IsDrained self.old → IsDrained self.new }
        ensures failed { FailsOnly result self.old self.new }
        ensures known { SameKnown self.old self.new }
        ensures wires { ConnectsOn W.journal w.old w.new (ports_in self.new) }
        ensures ports { ports_in self.new ≡ ports_in self.old }
        ensures calls { CallsOfLoop W.journal w.old w.new }
        ensures cause { CountsBy NetCause W.counts w.old w.new (IsErr result) }
    {
        if !self.links.at(place).is_to_begin(forced, w.last()) {
            return Ok(());
        }
        match self.connect_at(w, conn, place, forced) {
            Connected::Begun => Ok(()),
            Connected::Refused => Ok(()),
            Connected::Failed => Err(LoopFault::NetFault { conn: Some(conn) }),
        }
    }

    /// Begins the refused connection at a place again.
    fn connect_at<W: World>(
        &mut self,
        w: &mut W,
        conn: Conn,
        place: usize,
        forced: bool,
    ) -> Connected
        requires place { place_of conn ≡ place }
        requires job { conn.job < 16 }
        requires within { place < 64 }
        requires may { IsSomeAnd (slice_get self.old.links place)
            (IsToBegin forced (W.counts w.old).last) }
        ensures goes { Between W.journal w.old w.new
            (Goes (OfferAt forced place) no_change self.old self.new) }
        ensures came { Between W.journal w.old w.new (λ _ after. ConnectCame conn result after) }
        ensures connects { Between W.journal w.old w.new (Connects place) }
        ensures well { IsWell self.old conn }
        ensures reads { reads_left self.new ≤ reads_left self.old }
        ensures only { OnlyAt place self.old self.new }
        ensures calm { IsCalmAt place (W.counts w.new).last self.new }
        ensures drained { IsDrained self.old → IsDrained self.new }
        ensures failed { (p : ℕ) → failed_at self.new p
            ≡ failed_connect result conn p (failed_at self.old p) }
        ensures known { SameKnown self.old self.new }
        ensures wires { ConnectsOn W.journal w.old w.new (ports_in self.new) }
        ensures ports { ports_in self.new ≡ ports_in self.old }
        ensures calls { CallsOfLoop W.journal w.old w.new }
        ensures cause { CountsBy NetCause W.counts w.old w.new (result ≡ Connected.Failed) }
    {
        let link = self.links.at(place);
        let how = w.connect(conn, link.port);
        let last = w.last();
        self.links.put(place, link.after_connect(how, last));
        how
    }

    /// Offers what is queued on the connection at a place, until it has none or takes none.
    fn write_all<W: World>(&mut self, w: &mut W, conn: Conn, place: usize) -> Result<(), LoopFault>
        requires place { place_of conn ≡ place }
        requires job { conn.job < 16 }
        requires within { place < 64 }
        requires calm { IsCalmAt place (W.counts w.old).last self.old }
        ensures goes { Between W.journal w.old w.new
            (Goes (OfferAt false place) no_change self.old self.new) }
        ensures came { Between W.journal w.old w.new (λ _ after. FaultCame result after) }
        ensures fault { IfErr result IsOfConn }
        ensures anew { (c : Conn) → result ≡ Err (LoopFault.NetFault (Some c)) →
            (place_of c ≡ place) × IsWell self.old c }
        ensures reads { reads_left self.new ≤ reads_left self.old }
        ensures only { OnlyAt place self.old self.new }
        ensures offered { OnOk result (IsOfferedAt place (W.counts w.new).last self.new) }
        ensures drained { IsDrained self.old → IsDrained self.new }
        ensures failed { FailsOnly result self.old self.new }
        ensures known { SameKnown self.old self.new }
        ensures wires { ConnectsOn W.journal w.old w.new (ports_in self.new) }
        ensures ports { ports_in self.new ≡ ports_in self.old }
        ensures calls { CallsOfLoop W.journal w.old w.new }
        ensures cause { CountsBy NetCause W.counts w.old w.new (IsErr result) }
    {
        while self.has_to_write(place) {
            match self.write_at(w, conn, place) {
                Put::Failed => return Err(LoopFault::NetFault { conn: Some(conn) }),
                _ => {}
            }
        }
        Ok(())
    }

    /// Whether bytes are queued at a place that takes some.
    fn has_to_write(&self, place: usize) -> bool
        requires { place < 64 }
        ensures { IsTrue result ↔ (IsSomeAnd (slice_get self.now.links place) MayWrite
            × (0 < length (rest_at self.now.queues place))) }
    {
        self.links.at(place).may_write() && !self.queues.is_empty(place)
    }

    /// Offers all that is queued on the connection at a place once.
    fn write_at<W: World>(&mut self, w: &mut W, conn: Conn, place: usize) -> Put
        requires place { place_of conn ≡ place }
        requires job { conn.job < 16 }
        requires within { place < 64 }
        requires may { IsSomeAnd (slice_get self.old.links place) MayWrite }
        requires some { 0 < length (rest_at self.old.queues place) }
        ensures goes { Between W.journal w.old w.new
            (Goes (OfferAt false place) no_change self.old self.new) }
        ensures came { Between W.journal w.old w.new (λ _ after. PutCame conn result after) }
        ensures only { OnlyAt place self.old self.new }
        ensures less { load place self.new < load place self.old }
        ensures well { IsWell self.old conn }
        ensures reads { reads_left self.new ≤ reads_left self.old }
        ensures calm { IsCalmAt place (W.counts w.old).last self.old
            → IsCalmAt place (W.counts w.new).last self.new }
        ensures drained { IsDrained self.old → IsDrained self.new }
        ensures failed { (p : ℕ) → failed_at self.new p
            ≡ failed_put result conn p (failed_at self.old p) }
        ensures known { SameKnown self.old self.new }
        ensures wires { ConnectsOn W.journal w.old w.new (ports_in self.new) }
        ensures ports { ports_in self.new ≡ ports_in self.old }
        ensures calls { CallsOfLoop W.journal w.old w.new }
        ensures cause { CountsBy NetCause W.counts w.old w.new (result ≡ Put.Failed) }
    {
        let put = Wire::write(w, conn, self.queues.rest(place));
        let last = w.last();
        self.queues.take_off(place, put);
        let link = self.links.at(place);
        self.links.put(place, link.after_write(put, last));
        put
    }

    /// Names the connections that a write found ended and that no answer has named.
    pub(crate) fn name_ends(&mut self) -> [bool; 64]
        ensures named { (p : ℕ) → p < 64 → slice_get result p ≡ Some (found_at self.old p) }
        ensures all { NamesAll self.old.links self.new.links }
        ensures reads { reads_left self.new ≤ reads_left self.old }
        ensures ports { ports_in self.new ≡ ports_in self.old }
        ensures same { self.new ≡ record self.old { links = self.new.links } }
    {
        let mut names = [false; 64];
        for place in 0..64usize {
            let link = self.links.at(place);
            names[place] = link.is_found();
            self.links.put(place, link.after_naming());
        }
        names
    }
}
