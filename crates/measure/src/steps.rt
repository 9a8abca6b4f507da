//! What is done with a loop, over any world.
ghost use Rattle.std.specs.Prelude.{◌≡◌, ◌<◌, ℕ, IsTrue, false, length, true};
ghost use Rattle.world.specs.Places.{place_of};
ghost use Rattle.ready_loop.specs.Begins.{IsFresh, is_of_job};
ghost use Rattle.ready_loop.specs.History.{conn_on};
ghost use Rattle.ready_loop.specs.States.{IsDrained, IsSound, known_at};

use jtext::Bytes;
use ready_loop::{Loop, Next};
use world::{Chan, Conn, Got, World};

/// The shell of job 0.
pub const SHELL: Conn = Conn {
    job: 0,
    chan: Chan::Shell,
};

/// Begins the connections of a job.
pub fn start<W: World>(l: &mut Loop, w: &mut W, job: u8) -> bool
    requires job { job < 16 }
    requires fresh { IsFresh job l.old }
    ensures known { IsTrue result → known_at l.new (place_of (conn_on job Chan.Shell)) ≡ true }
    ensures others { (p : ℕ) → is_of_job job p ≡ false → known_at l.new p ≡ known_at l.old p }
    ensures sound { IsTrue result → IsSound l.old → IsSound l.new }
{
    match l.begin(w, job, [1, 2, 3, 4, 5], true) {
        Ok(()) => true,
        Err(_) => false,
    }
}

/// Begins the connections of 16 jobs.
pub fn start_all<W: World>(l: &mut Loop, w: &mut W) -> bool
    requires { (p : ℕ) → known_at l.old p ≡ false }
    ensures { IsTrue result → IsSound l.old → IsSound l.new }
{
    for job in 0..16u8 {
        if !start(l, w, job) {
            return false;
        }
    }
    true
}

/// Turns, each of which reads what the wait before it reported.
pub fn turns<W: World>(l: &mut Loop, w: &mut W, buf: &mut [u8], count: u32) -> bool
    requires sound { IsSound l.old }
    requires buf { 0 < length buf.old }
{
    for _ in 0..count {
        if !turn(l, w, buf) {
            return false;
        }
    }
    true
}

// Reads what is there, offers, and waits.
fn turn<W: World>(l: &mut Loop, w: &mut W, buf: &mut [u8]) -> bool
    requires sound { IsSound l.old }
    requires buf { 0 < length buf.old }
    ensures { IsTrue result → IsSound l.new }
{
    for _ in 0..1_000u32 {
        match l.next(w, buf) {
            Ok(Next::Quiet) => return wait(l, w),
            Ok(_) => {}
            Err(_) => return false,
        }
    }
    false
}

// Offers, and waits.
fn wait<W: World>(l: &mut Loop, w: &mut W) -> bool
    requires drained { IsDrained l.old }
    requires sound { IsSound l.old }
    ensures { IsTrue result → IsSound l.new }
{
    l.offer(w).is_ok() && l.turn(w, None).is_ok()
}

/// The same reads, without a loop.
pub fn reads<W: World>(w: &mut W, buf: &mut [u8], count: u32) -> bool
    requires { 0 < length buf.old }
{
    for _ in 0..count {
        match w.read(SHELL, buf) {
            Got::Piece(_) => {}
            _ => return false,
        }
    }
    true
}

/// Puts out bytes on the shell of job 0.
pub fn puts<W: World>(l: &mut Loop, w: &mut W, bytes: Bytes) -> bool
    requires { IsFresh 0 l.old }
{
    if !start(l, w, 0) {
        return false;
    }
    let size = bytes.len() as u64;
    l.queue(SHELL, bytes).is_ok() && l.offer(w).is_ok() && l.taken(SHELL) == size
}
