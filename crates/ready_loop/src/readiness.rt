//! `Loop`: what it keeps, and the calls that reach no world.
ghost use Rattle.std.specs.Prelude.{◌≡◌, ◌+◌, ◌<◌, ℕ, List, false, true, IfOk, OnErr, None, length, replicate};
ghost use Rattle.world.specs.declared.entry.Entry.{Entry};
ghost use Rattle.world.specs.Places.{place_of};
ghost use Rattle.world.specs.Waits.{wait_count};
ghost use Rattle.ready_loop.specs.History.{History, no_history, after_queue};
ghost use Rattle.ready_loop.specs.Standing.{StandsFor, AllShut, put_at};
ghost use Rattle.ready_loop.specs.States.{HoldsForKnown, IsDrained, IsSound, MayWait, OnlyAt, SameKnown};
ghost use Rattle.ready_loop.specs.States.{failed_at, known_at, reads_left, waits_left};
ghost use Rattle.ready_loop.specs.Wires.{ports_in};

use crate::conn_place::place_at;
use crate::links::Links;
use crate::queues::Queues;
use jtext::{Bytes, NoMemory};
use std::alloc::Global;
use world::Conn;

/// The connections of up to 16 jobs in one loop, which never sleeps on what could go on and never
/// reads what nobody reported. One turn is `next` until `Quiet`, `offer`, and then `turn` or `look`.
#[derive(Drop)]
pub struct Loop {
    pub(crate) links: Links,
    pub(crate) queues: Queues,
    /// How many waits may still be made.
    pub(crate) left: u64,
}

impl Loop {
    /// A loop with no connection, which waits so many times.
    pub fn new(alloc: Global, turns: u64) -> Result<Loop, NoMemory>
        // It stands for each journal in which every connection that was begun was closed.
        ensures stands { IfOk result (λ l. (journal : List Entry) → AllShut journal →
            StandsFor l (no_history (wait_count journal + turns)) journal) }
        ensures ready { IfOk result MayWait }
        ensures left { IfOk result (λ l. waits_left l ≡ turns) }
        ensures fresh { IfOk result (λ l. (p : ℕ) → known_at l p ≡ false) }
        ensures ports { IfOk result (λ l. ports_in l ≡ replicate 64 None) }
        ensures holds { IfOk result HoldsForKnown }
    {
        Ok(Loop {
            links: Links::new(alloc)?,
            queues: Queues::new(alloc)?,
            left: turns,
        })
    }

    /// Queues bytes behind those of a connection that was begun. Nothing is copied where nothing is
    /// queued there.
    pub fn queue(&mut self, conn: Conn, bytes: Bytes) -> Result<(), NoMemory>
        requires job { conn.job < 16 }
        requires begun { known_at self.old (place_of conn) ≡ true }
        // They are put out behind what was queued before.
        ensures stands { (h : History) (journal : List Entry) → StandsFor self.old h journal →
            StandsFor self.new (after_queue conn bytes result h) journal }
        ensures err { OnErr result (self.new ≡ self.old) }
        ensures drained { IsDrained self.old → IsDrained self.new }
        ensures failed { (p : ℕ) → failed_at self.new p ≡ failed_at self.old p }
        ensures sound { IsSound self.old → IsSound self.new }
        ensures known { SameKnown self.old self.new }
        ensures reads { reads_left self.new ≡ reads_left self.old }
        // What is queued elsewhere stays.
        ensures only { OnlyAt (place_of conn) self.old self.new }
        ensures left { waits_left self.new ≡ waits_left self.old }
        ensures ports { ports_in self.new ≡ ports_in self.old }
    {
        self.queues.push(place_at(conn), bytes)
    }

    /// How many bytes of a connection were taken since it was begun.
    pub fn taken(&self, conn: Conn) -> u64
        requires { conn.job < 16 }
        ensures { (h : History) (journal : List Entry) → StandsFor self.now h journal →
            result ≡ length (put_at h journal (place_of conn)) }
    {
        self.queues.taken(place_at(conn))
    }
}
