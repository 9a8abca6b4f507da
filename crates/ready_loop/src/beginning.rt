//! Beginning and closing the connections of a job.
ghost use Rattle.std.specs.Prelude.{◌≡◌, ◌<◌, ◌≤◌, ◌||◌, ℕ, IsErr, IfErr, OnOk, Err, Some, false, slice_get};
ghost use Rattle.world.specs.Counts.{CountsBy, NetCause};
ghost use Rattle.world.specs.Places.{place_of, is_at};
ghost use Rattle.world.specs.Told.{Adds, Between};
ghost use Rattle.world.specs.declared.entry.Entry.{Entry};
ghost use Rattle.ready_loop.specs.Begins.{BeginMoment, Begins, BeginsOne, IsFresh, IsBegun};
ghost use Rattle.ready_loop.specs.Begins.{CloseMoment, CloseCame, ClosesOne, closing, is_of_job};
ghost use Rattle.ready_loop.specs.Begins.{Closes, OnlyOfJob, unless_closed};
ghost use Rattle.ready_loop.specs.History.{no_change, with_begun, after_begin, chans};
ghost use Rattle.ready_loop.specs.Offers.{IsOfConn};
ghost use Rattle.ready_loop.specs.Standing.{Goes, CallsOfLoop};
ghost use Rattle.ready_loop.specs.States.{IsDrained, IsOffered, IsSound, FailsOnly, OnlyAt};
ghost use Rattle.ready_loop.specs.States.{HoldsForKnown, failed_at, failed_connect, known_at, reads_left, waits_left};
ghost use Rattle.ready_loop.specs.Wires.{AddsPort, ConnectsOn, HasPorts, ports_in};

use crate::conn_place::place_at;
use crate::{Loop, LoopFault};
use world::{Chan, Conn, Connected, World};

impl Loop {
    /// Begins the connections of a job that was not begun before, the heartbeat connection only where
    /// `heart` is true. The ports are those of shell, iopub, stdin, control and heartbeat.
    pub fn begin<W: World>(
        &mut self,
        w: &mut W,
        job: u8,
        ports: [u16; 5],
        heart: bool,
    ) -> Result<(), LoopFault>
        requires job { job < 16 }
        requires fresh { IsFresh job self.old }
        // One connect for each channel, on its port, up to one that fails: its connection is named.
        ensures came { Between W.journal w.old w.new (Begins job ports (chans heart) result) }
        ensures goes { Between W.journal w.old w.new
            (Goes BeginMoment (after_begin job heart result) self.old self.new) }
        ensures fault { IfErr result IsOfConn }
        ensures own { (c : Conn) → result ≡ Err (LoopFault.NetFault (Some c)) →
            c.job ≡ job }

        ensures begun { OnOk result (IsBegun job heart self.new) }
        ensures others { (p : ℕ) → is_of_job job p ≡ false →
            known_at self.new p ≡ known_at self.old p }
        ensures drained { IsDrained self.old → IsDrained self.new }
        // Nothing is to be offered to a connection that was just begun.
        ensures holds { HoldsForKnown self.old → HoldsForKnown self.new }
        ensures offered { HoldsForKnown self.old → IsOffered self.old → IsOffered self.new }
        ensures failed { FailsOnly result self.old self.new }
        ensures sound { OnOk result (IsSound self.old → IsSound self.new) }
        ensures left { waits_left self.new ≡ waits_left self.old }
        // For each connection that it began, failed ones too, the port of its channel is kept.
        ensures wires { ConnectsOn W.journal w.old w.new (ports_in self.new) }
        ensures ports { HasPorts job ports self.new }
        ensures kept { (p : ℕ) → is_of_job job p ≡ false →
            slice_get (ports_in self.new) p ≡ slice_get (ports_in self.old) p }
        ensures calls { CallsOfLoop W.journal w.old w.new }
        ensures cause { CountsBy NetCause W.counts w.old w.new (IsErr result) }
    {
        let shell = Conn {
            job,
            chan: Chan::Shell,
        };
        match self.begin_on(w, shell, ports[0]) {
            Ok(()) => {}
            Err(fault) => return Err(fault),
        }
        let control = Conn {
            job,
            chan: Chan::Control,
        };
        match self.begin_on(w, control, ports[3]) {
            Ok(()) => {}
            Err(fault) => return Err(fault),
        }
        let iopub = Conn {
            job,
            chan: Chan::Iopub,
        };
        match self.begin_on(w, iopub, ports[1]) {
            Ok(()) => {}
            Err(fault) => return Err(fault),
        }
        if !heart {
            return Ok(());
        }
        let chan = Chan::Heart;
        self.begin_on(w, Conn { job, chan }, ports[4])
    }

    /// Begins a connection, which has to go well.
    fn begin_on<W: World>(&mut self, w: &mut W, conn: Conn, port: u16) -> Result<(), LoopFault>
        requires job { conn.job < 16 }
        requires fresh { known_at self.old (place_of conn) ≡ false }
        ensures came { Between W.journal w.old w.new (BeginsOne conn port result) }
        ensures fault { IfErr result (λ fault. fault ≡ LoopFault.NetFault (Some conn)) }
        ensures goes { Between W.journal w.old w.new
            (Goes BeginMoment (with_begun (place_of conn)) self.old self.new) }
        ensures only { OnlyAt (place_of conn) self.old self.new }
        ensures drained { IsDrained self.old → IsDrained self.new }
        ensures holds { HoldsForKnown self.old → HoldsForKnown self.new }
        ensures offered { HoldsForKnown self.old → IsOffered self.old → IsOffered self.new }
        ensures failed { FailsOnly result self.old self.new }
        ensures known { (p : ℕ) → known_at self.new p ≡ is_at p conn || known_at self.old p }
        ensures same { self.new ≡ record self.old { links = self.new.links } }
        ensures wires { ConnectsOn W.journal w.old w.new (ports_in self.new) }
        ensures ports { AddsPort (place_of conn) port
            (ports_in self.old) (ports_in self.new) }
        ensures calls { CallsOfLoop W.journal w.old w.new }
        ensures cause { CountsBy NetCause W.counts w.old w.new (IsErr result) }
    {
        match self.begin_at(w, conn, port) {
            Connected::Begun => Ok(()),
            Connected::Refused => Ok(()),
            Connected::Failed => Err(LoopFault::NetFault { conn: Some(conn) }),
        }
    }

    /// Begins a connection.
    fn begin_at<W: World>(&mut self, w: &mut W, conn: Conn, port: u16) -> Connected
        requires job { conn.job < 16 }
        requires fresh { known_at self.old (place_of conn) ≡ false }
        ensures tells { Adds W.journal w.old w.new (Entry.Connected conn port result) }
        ensures goes { Between W.journal w.old w.new
            (Goes BeginMoment (with_begun (place_of conn)) self.old self.new) }
        ensures only { OnlyAt (place_of conn) self.old self.new }
        ensures drained { IsDrained self.old → IsDrained self.new }
        ensures holds { HoldsForKnown self.old → HoldsForKnown self.new }
        ensures offered { HoldsForKnown self.old → IsOffered self.old → IsOffered self.new }
        ensures failed { (p : ℕ) → failed_at self.new p
            ≡ failed_connect result conn p (failed_at self.old p) }
        ensures known { (p : ℕ) → known_at self.new p ≡ is_at p conn || known_at self.old p }
        ensures same { self.new ≡ record self.old { links = self.new.links } }
        ensures wires { ConnectsOn W.journal w.old w.new (ports_in self.new) }
        ensures ports { AddsPort (place_of conn) port
            (ports_in self.old) (ports_in self.new) }
        ensures calls { CallsOfLoop W.journal w.old w.new }
        ensures cause { CountsBy NetCause W.counts w.old w.new (result ≡ Connected.Failed) }
    {
        let place = place_at(conn);
        let how = w.connect(conn, port);
        let last = w.last();
        let link = self.links.at(place);
        self.links
            .put(place, link.begun_on(port).after_connect(how, last));
        how
    }

    /// Closes the connections of a job for which connect was called, whatever that answered, each
    /// once, and also where it has ended or was refused since.
    pub fn close<W: World>(&mut self, w: &mut W, job: u8)
        requires { job < 16 }
        ensures came { Between W.journal w.old w.new (CloseCame job self.old) }
        ensures goes { Between W.journal w.old w.new
            (Goes CloseMoment no_change self.old self.new) }
        ensures drained { IsDrained self.old → IsDrained self.new }
        ensures offered { IsOffered self.old → IsOffered self.new }
        ensures failed { (p : ℕ) → failed_at self.new p
            ≡ unless_closed (is_of_job job p) (failed_at self.old p) }
        ensures sound { IsSound self.old → IsSound self.new }
        // Just the connections of this job are closed; nothing is changed of those of others.
        ensures only { OnlyOfJob job self.old self.new }
        ensures closes { Closes (λ p. is_of_job job p) self.old self.new }
        ensures reads { reads_left self.new ≤ reads_left self.old }
        ensures left { waits_left self.new ≡ waits_left self.old }
        ensures wires { ConnectsOn W.journal w.old w.new (ports_in self.new) }
        ensures ports { ports_in self.new ≡ ports_in self.old }
        ensures calls { CallsOfLoop W.journal w.old w.new }
        ensures counts { W.counts w.new ≡ W.counts w.old }
    {
        let chan = Chan::Shell;
        self.close_one(w, Conn { job, chan });
        let chan = Chan::Control;
        self.close_one(w, Conn { job, chan });
        let chan = Chan::Iopub;
        self.close_one(w, Conn { job, chan });
        let chan = Chan::Heart;
        self.close_one(w, Conn { job, chan });
    }

    /// Closes a connection, where connect was called for it.
    fn close_one<W: World>(&mut self, w: &mut W, conn: Conn)
        requires { conn.job < 16 }
        ensures came { Between W.journal w.old w.new (ClosesOne conn self.old) }
        ensures goes { Between W.journal w.old w.new
            (Goes CloseMoment no_change self.old self.new) }
        ensures only { OnlyAt (place_of conn) self.old self.new }
        ensures drained { IsDrained self.old → IsDrained self.new }
        ensures offered { IsOffered self.old → IsOffered self.new }
        ensures failed { (p : ℕ) → failed_at self.new p
            ≡ unless_closed (is_at p conn) (failed_at self.old p) }
        ensures closes { Closes (λ p. is_at p conn) self.old self.new }
        ensures reads { reads_left self.new ≤ reads_left self.old }
        ensures same { self.new ≡ record self.old { links = self.new.links } }
        ensures wires { ConnectsOn W.journal w.old w.new (ports_in self.new) }
        ensures ports { ports_in self.new ≡ ports_in self.old }
        ensures calls { CallsOfLoop W.journal w.old w.new }
        ensures counts { W.counts w.new ≡ W.counts w.old }
    {
        let place = place_at(conn);
        let link = self.links.at(place);
        close_where(w, conn, link.is_begun());
        self.links.put(place, link.after_close());
    }
}

/// Closes a connection, where that is asked for.
fn close_where<W: World>(w: &mut W, conn: Conn, begun: bool)
    requires { conn.job < 16 }
    ensures came { Between W.journal w.old w.new
        (λ before after. after ≡ closing begun conn before) }
    ensures calls { CallsOfLoop W.journal w.old w.new }
    ensures counts { W.counts w.new ≡ W.counts w.old }
{
    if begun {
        w.close(conn);
    }
}
