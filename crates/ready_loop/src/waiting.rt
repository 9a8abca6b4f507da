//! Waiting, and taking over what a wait reported.
ghost use Rattle.std.specs.Prelude.{◌≡◌, ◌↔◌, ◌-◌, ◌<◌, ◌≤◌, ℕ, Err, IfOk};
ghost use Rattle.world.specs.Counts.{CountsBy, WaitCause};
ghost use Rattle.world.specs.Places.{is_reported, time};
ghost use Rattle.ready_loop.specs.Link.{wait_link};
ghost use Rattle.ready_loop.specs.Standing.{CallsOfLoop};
ghost use Rattle.world.specs.Told.{Between};
ghost use Rattle.ready_loop.specs.States.{MayWait, FailsOnly, IsSound, MapsBelow, SameKnown, failed_at, waits_left};
ghost use Rattle.ready_loop.specs.Waits.{WaitCame, Turned, TurnCounts};
ghost use Rattle.ready_loop.specs.Wires.{ConnectsOn, ports_in};

use crate::timer::limit;
use crate::{Loop, LoopFault};
use world::{Did, Reports, World};

impl Loop {
    /// Waits once, up to the next timer of the loop or the moment `due`, and gives the clock.
    pub fn turn<W: World>(&mut self, w: &mut W, due: Option<u64>) -> Result<u64, LoopFault>
        requires { MayWait self.old }
        // One wait, with exactly the limit of the timers, and the clock directly behind it.
        ensures turned { Between W.journal w.old w.new
            (Turned due result (W.counts w.old).last self.old self.new) }
        // The moment that it gives is no earlier than the journal's time before.
        ensures rises { IfOk result (λ ms.
            Between W.journal w.old w.new (λ before _. time before ≤ ms)) }

        // `Spent` exactly where no wait is left, and then nothing changes.
        ensures spent { (result ≡ Err LoopFault.Spent) ↔ (waits_left self.old ≡ 0) }
        ensures still { result ≡ Err LoopFault.Spent → self.new ≡ self.old }

        ensures failed { FailsOnly result self.old self.new }
        ensures sound { IsSound self.new }
        ensures known { SameKnown self.old self.new }
        ensures left { waits_left self.new ≡ waits_left self.old - 1 }
        ensures wires { ConnectsOn W.journal w.old w.new (ports_in self.new) }
        ensures ports { ports_in self.new ≡ ports_in self.old }
        ensures calls { CallsOfLoop W.journal w.old w.new }
        ensures cause { TurnCounts result (W.counts w.old) (W.counts w.new) }
        ensures later { (W.counts w.old).last ≤ (W.counts w.new).last }
    {
        let last = w.last();
        if self.left == 0 {
            return Err(LoopFault::Spent);
        }
        let limit = limit(&self.links, last, due);
        match self.wait(w, limit) {
            Did::Failed => Err(LoopFault::NetFault { conn: None }),
            Did::Done => Ok(w.now()),
        }
    }

    /// Waits at most so many milliseconds.
    pub(crate) fn wait<W: World>(&mut self, w: &mut W, ms: u32) -> Did
        requires { 0 < self.old.left }
        ensures came { Between W.journal w.old w.new (WaitCame ms result self.old self.new) }
        ensures failed { (p : ℕ) → failed_at self.new p ≡ failed_at self.old p }
        ensures known { SameKnown self.old self.new }
        ensures same { self.new
            ≡ record self.old { links = self.new.links; left = self.old.left - 1 } }
        ensures wires { ConnectsOn W.journal w.old w.new (ports_in self.new) }
        ensures ports { ports_in self.new ≡ ports_in self.old }
        ensures calls { CallsOfLoop W.journal w.old w.new }
        ensures cause { CountsBy WaitCause W.counts w.old w.new (result ≡ Did.Failed) }
    {
        let mut out = Reports { ready: [false; 64] };
        let did = w.wait(ms, &mut out);
        self.report(&out, did);
        self.left -= 1;
        did
    }

    /// Takes over what a wait reported.
    fn report(&mut self, reports: &Reports, did: Did)
        ensures ports { ports_in self.new ≡ ports_in self.old }
        ensures reported { MapsBelow 64 (λ p. wait_link did (is_reported p reports.now.ready))
            self.old.links self.new.links }
        ensures same { self.new ≡ record self.old { links = self.new.links } }
    {
        for place in 0..64usize {
            let link = self.links.at(place);
            self.links
                .put(place, link.after_wait(reports.ready[place], did));
        }
    }
}
