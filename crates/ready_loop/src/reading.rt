//! Reading what a wait reported.
ghost use Rattle.std.specs.Prelude.{◌≡◌, ◌<◌, ◌≤◌, ◌+◌, ℕ, length, slice_get, IfErr, IsErr, IsSomeAnd, OnOk, Ok, Err, Some};
ghost use Rattle.world.specs.Counts.{CountsBy, NetCause};
ghost use Rattle.world.specs.Places.{place_of};
ghost use Rattle.world.specs.Told.{Adds, GotSome, read_entry, Between};
ghost use Rattle.ready_loop.specs.Link.{MayRead};
ghost use Rattle.ready_loop.specs.History.{after_next};
ghost use Rattle.ready_loop.specs.Reads.{ReadMoment, NextCame, after_got, failed_got};
ghost use Rattle.ready_loop.specs.Offers.{IsOfConn};
ghost use Rattle.ready_loop.specs.Standing.{Goes, CallsOfLoop};
ghost use Rattle.ready_loop.specs.States.{IsDrained, IsOffered, FailsOnly, EachBelow};
ghost use Rattle.ready_loop.specs.States.{IsWell, NotRead, IsSound, SameKnown, failed_at, reads_left, waits_left};
ghost use Rattle.ready_loop.specs.Wires.{ConnectsOn, ports_in};

use crate::conn_place::conn_at;
use crate::{Loop, LoopFault, Next};
use world::{Conn, Got, World};

impl Loop {
    /// Reads one connection that is awake, at most 64 times between two waits. `Quiet` comes exactly
    /// where none is left to be read. A fault names the connection of the failed call.
    pub fn next<W: World>(&mut self, w: &mut W, buf: &mut [u8]) -> Result<Next, LoopFault>
        requires { 0 < length buf.old }
        // Only connections that are awake are read; the newest entry is that of the answer.
        ensures goes { Between W.journal w.old w.new
            (Goes ReadMoment (after_next result) self.old self.new) }
        ensures came { Between W.journal w.old w.new (NextCame result (length buf.old) buf.new) }
        ensures fault { IfErr result IsOfConn }
        // A fault names a connection that was begun and not closed, and had not failed before.
        ensures anew { (c : Conn) → result ≡ Err (LoopFault.NetFault (Some c)) →
            IsWell self.old c }

        // `Quiet` exactly where no connection is to be read.
        ensures quiet { result ≡ Ok Next.Quiet → IsDrained self.new }
        ensures none { IsDrained self.old → result ≡ Ok Next.Quiet }

        // No more reads are left than before, and fewer where it answers anything else.
        ensures most { reads_left self.new ≤ reads_left self.old }
        ensures reads { (result ≡ Ok Next.Quiet → ⊥) → reads_left self.new < reads_left self.old }

        ensures offered { IsOffered self.old → IsOffered self.new }
        ensures failed { FailsOnly result self.old self.new }
        ensures sound { OnOk result (IsSound self.old → IsSound self.new) }
        ensures known { SameKnown self.old self.new }
        ensures left { waits_left self.new ≡ waits_left self.old }
        ensures wires { ConnectsOn W.journal w.old w.new (ports_in self.new) }
        ensures ports { ports_in self.new ≡ ports_in self.old }
        ensures calls { CallsOfLoop W.journal w.old w.new }
        ensures cause { CountsBy NetCause W.counts w.old w.new (IsErr result) }
    {
        for place in 0..64usize {
            if !self.links.at(place).may_read() {
                continue;
            }
            let conn = conn_at(place);
            match self.read_at(w, conn, place, buf) {
                Got::Piece(n) => return Ok(Next::Piece { conn, n }),
                Got::Dry => {}
                Got::Ended => return Ok(Next::Ended(conn)),
                Got::Refused => return Ok(Next::Refused(conn)),
                Got::Failed => return Err(LoopFault::NetFault { conn: Some(conn) }),
            }
        }
        Ok(Next::Quiet)
    }

    /// Reads the connection at a place once.
    fn read_at<W: World>(&mut self, w: &mut W, conn: Conn, place: usize, buf: &mut [u8]) -> Got
        requires place { place_of conn ≡ place }
        requires job { conn.job < 16 }
        requires within { place < 64 }
        requires buf { 0 < length buf.old }
        requires may { IsSomeAnd (slice_get self.old.links place) MayRead }
        ensures some { GotSome result (length buf.old) }
        ensures tells { Adds W.journal w.old w.new
            (read_entry conn (length buf.old) result buf.new) }
        ensures goes { Between W.journal w.old w.new
            (Goes ReadMoment (after_got result conn) self.old self.new) }
        ensures well { IsWell self.old conn }
        ensures below { result ≡ Got.Dry → EachBelow place self.old.links NotRead
            → EachBelow (place + 1) self.new.links NotRead }
        ensures reads { reads_left self.new < reads_left self.old }
        ensures offered { IsOffered self.old → IsOffered self.new }
        ensures failed { (p : ℕ) → failed_at self.new p
            ≡ failed_got result conn p (failed_at self.old p) }
        ensures known { SameKnown self.old self.new }
        ensures same { self.new ≡ record self.old { links = self.new.links } }
        ensures wires { ConnectsOn W.journal w.old w.new (ports_in self.new) }
        ensures ports { ports_in self.new ≡ ports_in self.old }
        ensures calls { CallsOfLoop W.journal w.old w.new }
        ensures cause { CountsBy NetCause W.counts w.old w.new (result ≡ Got.Failed) }
    {
        let got = w.read(conn, buf);
        let last = w.last();
        let link = self.links.at(place);
        self.links.put(place, link.after_read(got, last));
        got
    }
}
