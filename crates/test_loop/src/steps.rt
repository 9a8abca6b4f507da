//! What the tests do with a loop, over any world.
ghost use Rattle.std.specs.Prelude.{◌≡◌, ◌<◌, ℕ, IsSome, IsTrue, false, length, true};
ghost use Rattle.world.specs.Places.{place_of};
ghost use Rattle.ready_loop.specs.Begins.{IsFresh, is_of_job};
ghost use Rattle.ready_loop.specs.History.{conn_on};
ghost use Rattle.ready_loop.specs.States.{IsDrained, IsSound, MayWait, known_at};

use ready_loop::{Loop, Next};
use world::{Chan, World};

/// The ports of a job: shell, iopub, stdin, control and heartbeat.
pub(crate) const PORTS: [u16; 5] = [1001, 1002, 1003, 1004, 1005];

/// Begins a job's connections.
pub(crate) fn start<W: World>(l: &mut Loop, w: &mut W, job: u8, heart: bool) -> bool
    requires job { job < 16 }
    requires fresh { IsFresh job l.old }
    ensures known { IsTrue result → known_at l.new (place_of (conn_on job Chan.Shell)) ≡ true }
    ensures others { (p : ℕ) → is_of_job job p ≡ false → known_at l.new p ≡ known_at l.old p }
    ensures sound { IsTrue result → IsSound l.old → IsSound l.new }
{
    match l.begin(w, job, PORTS, heart) {
        Ok(()) => true,
        Err(_) => false,
    }
}

/// Begins the connections of 16 jobs.
pub(crate) fn start_all<W: World>(l: &mut Loop, w: &mut W) -> bool
    requires { (p : ℕ) → known_at l.old p ≡ false }
    ensures sound { IsTrue result → IsSound l.old → IsSound l.new }
{
    for job in 0..16u8 {
        if !start(l, w, job, true) {
            return false;
        }
    }
    true
}

/// Reads until nothing is left to be read.
pub(crate) fn read_all<W: World>(l: &mut Loop, w: &mut W, buf: &mut [u8]) -> bool
    requires { 0 < length buf.old }
    ensures drained { IsTrue result → IsDrained l.new }
    ensures sound { IsTrue result → IsSound l.old → IsSound l.new }
{
    for _ in 0..10_000u32 {
        match l.next(w, buf) {
            Ok(Next::Quiet) => return true,
            Ok(_) => {}
            Err(_) => return false,
        }
    }
    false
}

/// Reads until nothing is left to be read, and offers what is queued.
pub(crate) fn serve<W: World>(l: &mut Loop, w: &mut W, buf: &mut [u8]) -> bool
    requires { 0 < length buf.old }
    ensures { IsTrue result → IsSound l.old → MayWait l.new }
{
    read_all(l, w, buf) && l.offer(w).is_ok()
}

/// One turn: reads what there is, offers what is queued, and waits.
pub(crate) fn turn<W: World>(l: &mut Loop, w: &mut W, buf: &mut [u8]) -> Option<u64>
    requires buf { 0 < length buf.old }
    requires sound { IsSound l.old }
    ensures { IsSome result → IsSound l.new }
{
    if !serve(l, w, buf) {
        return None;
    }
    l.turn(w, None).ok()
}
