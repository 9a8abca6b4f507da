//! A last look: one more try to begin, to write and to wait, for some jobs alone.
ghost use Rattle.std.specs.Prelude.{◌≡◌, ◌↔◌, IfErr, IsErr, OnOk, Err, Some};
ghost use Rattle.world.specs.Counts.{CountsBy, NetCause};
ghost use Rattle.world.specs.declared.conn.Conn.{Conn};
ghost use Rattle.ready_loop.specs.History.{no_change};
ghost use Rattle.ready_loop.specs.Offers.{LookMoment, FaultCame, BeginsBelow, IsOfConn, Names};
ghost use Rattle.ready_loop.specs.Standing.{Goes, CallsOfLoop};
ghost use Rattle.world.specs.Told.{Between};
ghost use Rattle.ready_loop.specs.States.{IsDrained, IsOffered, IsSound, MayWait, FailsOnly, SameKnown, IsCalm, IsWell, waits_left};
ghost use Rattle.ready_loop.specs.Waits.{Looked, LookCounts, left_after};
ghost use Rattle.ready_loop.specs.Wires.{ConnectsOn, ports_in};

use crate::{Loop, LoopFault};
use world::{Did, World};

impl Loop {
    /// A last look for these jobs, by their numbers: begins each of their refused connections once
    /// more, offers what is queued on their connections, and waits with the limit 0, without the
    /// clock. It answers as `offer` does.
    pub fn look<W: World>(&mut self, w: &mut W, jobs: [bool; 16]) -> Result<[bool; 64], LoopFault>
        requires { MayWait self.old }
        // Only connections of these jobs are begun or written to; then one wait that does not last.
        ensures looked { Between W.journal w.old w.new
            (Looked jobs result (W.counts w.old).last self.old self.new) }
        ensures names { Between W.journal w.old w.new (Names result self.old) }

        // `Spent` exactly where no wait is left, and then nothing changes.
        ensures spent { (result ≡ Err LoopFault.Spent) ↔ (waits_left self.old ≡ 0) }
        ensures still { result ≡ Err LoopFault.Spent → self.new ≡ self.old }
        ensures left { waits_left self.new ≡ left_after result (waits_left self.old) }

        // After a fault of a connection no wait was made, so nothing is to be read.
        ensures drained { (conn : Conn) → result ≡ Err (LoopFault.NetFault (Some conn)) →
            IsDrained self.new }
        ensures failed { FailsOnly result self.old self.new }
        // A fault names a connection that was begun and not closed, and had not failed before.
        ensures anew { (c : Conn) → result ≡ Err (LoopFault.NetFault (Some c)) →
            IsWell self.old c }
        ensures sound { OnOk result (IsSound self.new) }
        ensures known { SameKnown self.old self.new }
        ensures wires { ConnectsOn W.journal w.old w.new (ports_in self.new) }
        ensures ports { ports_in self.new ≡ ports_in self.old }
        ensures calls { CallsOfLoop W.journal w.old w.new }
        ensures cause { LookCounts result (W.counts w.old) (W.counts w.new) }
    {
        let _last = w.last();
        if self.left == 0 {
            return Err(LoopFault::Spent);
        }
        match self.offer_jobs(w, &jobs) {
            Ok(()) => {}
            Err(fault) => return Err(fault),
        }
        match self.wait(w, 0) {
            Did::Failed => Err(LoopFault::NetFault { conn: None }),
            Did::Done => Ok(self.name_ends()),
        }
    }

    /// Begins the refused connections of these jobs again, and offers what is queued on theirs.
    fn offer_jobs<W: World>(&mut self, w: &mut W, jobs: &[bool; 16]) -> Result<(), LoopFault>
        ensures goes { Between W.journal w.old w.new
            (Goes (LookMoment jobs.now) no_change self.old self.new) }
        ensures came { Between W.journal w.old w.new (λ _ after. FaultCame result after) }
        ensures begins { OnOk result
            (Between W.journal w.old w.new (BeginsBelow 64 jobs.now self.old)) }
        ensures offered { OnOk result (IsOffered self.old → IsOffered self.new) }
        ensures calm { OnOk result (IsCalm (W.counts w.old).last self.old
            → IsCalm (W.counts w.new).last self.new) }
        ensures drained { IsDrained self.old → IsDrained self.new }
        ensures failed { FailsOnly result self.old self.new }
        ensures known { SameKnown self.old self.new }
        ensures fault { IfErr result IsOfConn }
        ensures anew { (c : Conn) → result ≡ Err (LoopFault.NetFault (Some c)) →
            IsWell self.old c }
        ensures left { self.new.left ≡ self.old.left }
        ensures wires { ConnectsOn W.journal w.old w.new (ports_in self.new) }
        ensures ports { ports_in self.new ≡ ports_in self.old }
        ensures calls { CallsOfLoop W.journal w.old w.new }
        ensures cause { CountsBy NetCause W.counts w.old w.new (IsErr result) }
    {
        for place in 0..64usize {
            if !jobs[place / 4] {
                continue;
            }
            match self.offer_at(w, place, true) {
                Ok(()) => {}
                Err(fault) => return Err(fault),
            }
        }
        Ok(())
    }
}
