//! The waits of a world in memory.
ghost use Rattle.std.specs.Prelude.{◌≡◌, ◌<◌, ◌≤◌, ◌&&◌, ℕ, false, replicate, true};
ghost use Rattle.world.specs.declared.conn.Conn.{Conn};
ghost use Rattle.world.specs.Counts.{HasCause};
ghost use Rattle.world.specs.Places.{is_reported, place_of};
ghost use Rattle.world_mem.specs.Far.{is_ready, Ticks};
ghost use Rattle.world_mem.specs.Links.{is_up};
ghost use Rattle.world_mem.specs.Near.{count_call, AfterWait};
ghost use Rattle.world_mem.specs.Store.{is_to_fail, FailsOrStarves};
ghost use Rattle.world_mem.specs.Wire.{clock_after, clock_by, is_any};

use crate::far::Far;
use crate::linked_journal::{LinkedJournal, conn_at};
use crate::near::Near;
use world::{Conn, Did, KernelSide, Reports};

impl<K: KernelSide> Far<K> {
    /// Brings the started kernels to the moment now, marks the connections that are up and have
    /// something to read, and moves the clock on where there is none.
    pub(crate) fn try_wait(&mut self, near: &mut Near, ms: u32, out: &mut Reports) -> Did
        ensures failed { result ≡ Did.Failed → out.new.ready ≡ replicate 64 false }
        ensures cause { HasCause near.old.net_faults near.new.net_faults (result ≡ Did.Failed) }
        ensures later { near.old.waits ≤ near.new.waits }
        ensures fails { FailsOrStarves (is_to_fail near.old.store)
            near.old.store near.new.store result }
        ensures ticks { result ≡ Did.Done → Ticks K.stands self.old.started
            self.old.clock self.old.kernels.items self.new.kernels.items }
        ensures reports { result ≡ Did.Done → (conn : Conn) → conn.job < 16 →
            is_reported (place_of conn) out.new.ready ≡ (is_up near.old.journal.ups conn
            && is_ready K.gives self.new.kernels.items self.old.clock conn) }
        ensures up { (p : ℕ) → is_reported p out.new.ready ≡ true →
            is_reported p near.old.journal.ups ≡ true }
        ensures started { self.new.started ≡ self.old.started }
        ensures clock { self.new.clock ≡ clock_by result out.new.ready self.old.clock ms }
        ensures passed { self.old.clock ≤ self.new.clock }
        ensures near { AfterWait near.old near.new result }
        ensures journal { near.new.journal ≡ near.old.journal }
    {
        *out = Reports { ready: [false; 64] };
        match self.try_tick(near) {
            Did::Failed => {
                near.count_wait(Did::Failed);
                Did::Failed
            }
            Did::Done => {
                near.count_wait(Did::Done);
                self.report_or_pass(&near.journal, ms, &mut out.ready);
                Did::Done
            }
        }
    }

    // Marks the connections that are up and have something to read, and moves the clock on where
    // there is none.
    fn report_or_pass(&mut self, journal: &LinkedJournal, ms: u32, ready: &mut [bool; 64])
        ensures reports { (conn : Conn) → conn.job < 16 → is_reported (place_of conn) ready.new
            ≡ (is_up journal.now.ups conn
            && is_ready K.gives self.old.kernels.items self.old.clock conn) }
        ensures up { (p : ℕ) → is_reported p ready.new ≡ true →
            is_reported p journal.now.ups ≡ true }
        ensures kernels { self.new.kernels ≡ self.old.kernels }
        ensures started { self.new.started ≡ self.old.started }
        ensures clock { self.new.clock ≡ clock_after ready.new self.old.clock ms }
        ensures passed { self.old.clock ≤ self.new.clock }
    {
        self.report(journal, ready);
        if !has_any(ready) {
            self.pass(ms);
        }
    }

    // Brings the started kernels to the moment now.
    fn try_tick(&mut self, near: &mut Near) -> Did
        ensures fails { FailsOrStarves (is_to_fail near.old.store)
            near.old.store near.new.store result }
        ensures ticks { result ≡ Did.Done → Ticks K.stands self.old.started
            self.old.clock self.old.kernels.items self.new.kernels.items }
        ensures started { self.new.started ≡ self.old.started }
        ensures clock { self.new.clock ≡ self.old.clock }
        ensures near { near.new ≡ record near.old {
          store = record (count_call near.old.store) { starved = near.new.store.starved };
        } }
    {
        let ticked = self.tick(near.alloc);
        if near.store.fails_now() {
            return Did::Failed;
        }
        match ticked {
            Ok(()) => Did::Done,
            Err(_) => near.store.starve(),
        }
    }

    // Marks the connections that are up and have something to read.
    fn report(&self, journal: &LinkedJournal, ready: &mut [bool; 64])
        ensures reports { (conn : Conn) → conn.job < 16 → is_reported (place_of conn) ready.new
            ≡ (is_up journal.now.ups conn
            && is_ready K.gives self.now.kernels.items self.now.clock conn) }
        ensures up { (p : ℕ) → is_reported p ready.new ≡ true →
            is_reported p journal.now.ups ≡ true }
    {
        for place in 0..64 {
            let conn = conn_at(place);
            ready[place] = self.is_to_report(journal, conn);
        }
    }

    // Whether a connection is up and has something to read.
    fn is_to_report(&self, journal: &LinkedJournal, conn: Conn) -> bool
        ensures { result ≡ (is_up journal.now.ups conn
            && is_ready K.gives self.now.kernels.items self.now.clock conn) }
    {
        journal.is_up(conn) && self.is_ready(conn)
    }
}

// Whether some place is marked.
fn has_any(ready: &[bool; 64]) -> bool
    ensures { result ≡ is_any ready.now }
{
    ready.iter().any(|place| *place)
}
