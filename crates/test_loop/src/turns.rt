//! One loop over the world that does nothing: each connect is refused, no wait reports anything, and
//! the clock stands still.
ghost use Rattle.std.specs.Prelude.{IsTrue};
ghost use Rattle.ready_loop.specs.Begins.{IsFresh};
ghost use Rattle.ready_loop.specs.States.{IsSound, MayWait};

use crate::steps::{PORTS, start};
use crate::worlds::{answer, place};
use jtext::{Bytes, NoMemory};
use ready_loop::{Loop, LoopFault, Next};
use std::alloc::Global;
use std::test::Fail;
use world::{Chan, Conn, Entry, World};
use world_mem::NullWorld;

// Reads until nothing is left and offers what is queued.
fn serve<W: World>(l: &mut Loop, w: &mut W) -> bool
    ensures { IsTrue result → IsSound l.old → MayWait l.new }
{
    let mut buf = [0; 16];
    if l.next(w, &mut buf) != Ok(Next::Quiet) {
        return false;
    }
    match l.offer(w) {
        Ok(names) => names == [false; 64],
        Err(_) => false,
    }
}

// The entries of a null world, in short: what, the place or the limit, and the port.
fn row(entry: &Entry) -> (&'static str, u64, u64) {
    match entry {
        Entry::Connected { conn, port, how } => (answer(*how), place(*conn), u64::from(*port)),
        Entry::Closed { conn } => ("closed", place(*conn), 0),
        Entry::Waited { ms, .. } => ("waited", u64::from(*ms), 0),
        Entry::Moment { ms } => ("moment", *ms, 0),
        _ => ("other", 0, 0),
    }
}

fn holds(w: &NullWorld, rows: &[(&str, u64, u64)]) -> bool {
    let Some(entries) = w.journal() else {
        return false;
    };
    if entries.len() != rows.len() {
        return false;
    }
    for i in 0..rows.len() {
        let (what, number, port) = rows[i];
        let Some(entry) = entries.get(i) else {
            return false;
        };
        let found = row(entry);
        if found.0 != what || found.1 != number || found.2 != port {
            return false;
        }
    }
    true
}

// Waits twice, and no more.
fn waits_twice<W: World>(l: &mut Loop, w: &mut W) -> bool
    requires { MayWait l.old }
{
    l.turn(w, None) == Ok(0)
        && serve(l, w)
        && l.turn(w, Some(120)) == Ok(0)
        && serve(l, w)
        && l.turn(w, None) == Err(LoopFault::Spent)
}

// The same by a new loop of two turns.
fn spends_a_loop<W: World>(alloc: Global, w: &mut W) -> Result<bool, NoMemory> {
    let mut l = Loop::new(alloc, 2)?;
    let is_spent = waits_twice(&mut l, w);
    drop(l);
    Ok(is_spent)
}

#[test]
fn a_loop_waits_its_turns_and_is_spent(rt: HostRuntime) -> Result<(), Fail> {
    let alloc = rt.alloc();
    let mut w = NullWorld::new(alloc);
    let is_spent = spends_a_loop(alloc, &mut w);
    let is_told = holds(
        &w,
        &[
            ("waited", 500, 0),
            ("moment", 0, 0),
            ("waited", 120, 0),
            ("moment", 0, 0),
        ],
    );
    drop(w);
    assert!(rt; is_spent?);
    assert!(rt; is_told);
    Ok(())
}

// Begins job 1, queues bytes, waits, and looks at that job.
fn begins_by_a_look<W: World>(l: &mut Loop, w: &mut W, alloc: Global) -> Result<bool, NoMemory>
    requires fresh { IsFresh 1 l.old }
    requires sound { IsSound l.old }
{
    let shell = Conn {
        job: 1,
        chan: Chan::Shell,
    };
    if !start(l, w, 1, false) {
        return Ok(false);
    }
    l.queue(shell, Bytes::of(alloc, b"abc")?)?;
    let mut jobs = [false; 16];
    jobs[1] = true;
    Ok(
        l.taken(shell) == 0
            && serve(l, w)
            && l.turn(w, None) == Ok(0)
            && serve(l, w)
            && l.look(w, jobs) == Ok([false; 64])
            && l.taken(shell) == 0,
    )
}

// The same by a new loop, which closes the job twice.
fn begins_and_closes<W: World>(alloc: Global, w: &mut W) -> Result<bool, NoMemory> {
    let mut l = Loop::new(alloc, 9)?;
    let is_begun = begins_by_a_look(&mut l, w, alloc);
    l.close(w, 1);
    l.close(w, 1);
    drop(l);
    is_begun
}

#[test]
fn a_refused_job_is_begun_again_by_a_look_and_closed_once(rt: HostRuntime) -> Result<(), Fail> {
    let alloc = rt.alloc();
    let mut w = NullWorld::new(alloc);
    let is_begun = begins_and_closes(alloc, &mut w);
    let is_told = holds(
        &w,
        &[
            ("refused", 4, 1001),
            ("refused", 5, 1004),
            ("refused", 6, 1002),
            ("waited", 200, 0),
            ("moment", 0, 0),
            ("refused", 4, 1001),
            ("refused", 5, 1004),
            ("refused", 6, 1002),
            ("waited", 0, 0),
            ("closed", 4, 0),
            ("closed", 5, 0),
            ("closed", 6, 0),
        ],
    );
    drop(w);
    assert!(rt; is_begun?);
    assert!(rt; is_told);
    Ok(())
}

// Begins job 0 with its heartbeat, by a new loop.
fn begins_with_heart<W: World>(alloc: Global, w: &mut W) -> Result<bool, NoMemory> {
    let mut l = Loop::new(alloc, 1)?;
    let is_begun = l.begin(w, 0, PORTS, true).is_ok();
    drop(l);
    Ok(is_begun)
}

#[test]
fn the_heartbeat_is_begun_where_it_is_wanted(rt: HostRuntime) -> Result<(), Fail> {
    let alloc = rt.alloc();
    let mut w = NullWorld::new(alloc);
    let is_begun = begins_with_heart(alloc, &mut w);
    let is_told = holds(
        &w,
        &[
            ("refused", 0, 1001),
            ("refused", 1, 1004),
            ("refused", 2, 1002),
            ("refused", 3, 1005),
        ],
    );
    drop(w);
    assert!(rt; is_begun?);
    assert!(rt; is_told);
    Ok(())
}

// Waits for no time, by a new loop.
fn waits_for_nothing<W: World>(alloc: Global, w: &mut W) -> Result<bool, NoMemory> {
    let mut l = Loop::new(alloc, 1)?;
    let moment = l.turn(w, Some(0));
    drop(l);
    Ok(moment == Ok(0))
}

#[test]
fn nothing_is_waited_for_past_the_moment_handed_in(rt: HostRuntime) -> Result<(), Fail> {
    let alloc = rt.alloc();
    let mut w = NullWorld::new(alloc);
    let is_past = waits_for_nothing(alloc, &mut w);
    let is_told = holds(&w, &[("waited", 0, 0), ("moment", 0, 0)]);
    drop(w);
    assert!(rt; is_past?);
    assert!(rt; is_told);
    Ok(())
}
