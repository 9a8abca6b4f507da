//! What the loop reads of a world in memory, and when it waits and begins again.
ghost use Rattle.std.specs.Prelude.{◌≡◌, ◌<◌, ℕ, IsTrue, false, length};
ghost use Rattle.ready_loop.specs.Begins.{IsFresh};
ghost use Rattle.ready_loop.specs.States.{IsSound, MayWait, known_at};

use crate::steps::{read_all, serve, start, start_all, turn};
use crate::worlds::{founts, reads, tells, world};
use jtext::NoMemory;
use ready_loop::{Loop, LoopFault};
use std::alloc::Global;
use std::test::Fail;
use world::World;

// Begins a job without a heartbeat, makes one turn and reads what it reported.
fn reads_a_turn<W: World>(l: &mut Loop, w: &mut W, buf: &mut [u8]) -> bool
    requires fresh { IsFresh 0 l.old }
    requires sound { IsSound l.old }
    requires buf { 0 < length buf.old }
    ensures { IsTrue result → IsSound l.new }
{
    start(l, w, 0, false) && turn(l, w, buf).is_some() && read_all(l, w, buf)
}

// Makes one more turn and reads what it reported.
fn reads_on<W: World>(l: &mut Loop, w: &mut W, buf: &mut [u8]) -> bool
    requires sound { IsSound l.old }
    requires buf { 0 < length buf.old }
{
    turn(l, w, buf).is_some() && read_all(l, w, buf)
}

// Makes one turn of a new loop.
fn one_turn<W: World>(alloc: Global, w: &mut W) -> Result<bool, NoMemory> {
    let mut l = Loop::new(alloc, 9)?;
    let mut buf = [0; 65_536];
    let is_read = reads_a_turn(&mut l, w, &mut buf);
    drop(l);
    Ok(is_read)
}

#[test]
fn what_a_wait_reported_is_read_until_nothing_comes(rt: HostRuntime) -> Result<(), Fail> {
    let alloc = rt.alloc();
    let mut w = world(alloc, founts(alloc, 1, 200_000, 0)?, &[], 0)?;
    let is_read = one_turn(alloc, &mut w);
    let is_told = tells(
        &w,
        &[
            ("begun", 0, 1),
            ("begun", 1, 1),
            ("begun", 2, 1),
            ("waited", 500, 1),
            ("moment", 0, 1),
            ("got", 65_536, 3),
            ("got", 3_392, 1),
            ("dry", 0, 1),
        ],
    );
    drop(w);
    assert!(rt; is_read?);
    assert!(rt; is_told);
    Ok(())
}

// Makes two turns of a new loop.
fn two_turns<W: World>(alloc: Global, w: &mut W) -> Result<bool, NoMemory> {
    let mut l = Loop::new(alloc, 9)?;
    let mut buf = [0; 65_536];
    let is_read = reads_a_turn(&mut l, w, &mut buf) && reads_on(&mut l, w, &mut buf);
    drop(l);
    Ok(is_read)
}

#[test]
fn a_connection_gives_bytes_64_times_between_two_waits(rt: HostRuntime) -> Result<(), Fail> {
    let alloc = rt.alloc();
    let mut w = world(alloc, founts(alloc, 1, 5_242_880, 0)?, &[], 0)?;
    let is_read = two_turns(alloc, &mut w);
    let is_told = tells(
        &w,
        &[
            ("begun", 0, 1),
            ("begun", 1, 1),
            ("begun", 2, 1),
            ("waited", 500, 1),
            ("moment", 0, 1),
            ("got", 65_536, 64),
            ("waited", 0, 1),
            ("moment", 0, 1),
            ("got", 65_536, 16),
            ("dry", 0, 1),
        ],
    );
    drop(w);
    assert!(rt; is_read?);
    assert!(rt; is_told);
    Ok(())
}

// Makes one turn of a new loop, and offers.
fn turn_and_offer<W: World>(alloc: Global, w: &mut W) -> Result<bool, NoMemory> {
    let mut l = Loop::new(alloc, 9)?;
    let mut buf = [0; 16];
    let is_read = reads_a_turn(&mut l, w, &mut buf) && l.offer(w).is_ok();
    drop(l);
    Ok(is_read)
}

#[test]
fn a_refused_connection_is_begun_again_after_200_ms(rt: HostRuntime) -> Result<(), Fail> {
    let alloc = rt.alloc();
    let mut w = world(alloc, founts(alloc, 1, 0, 0)?, &[], 1)?;
    let is_read = turn_and_offer(alloc, &mut w);
    let is_told = tells(
        &w,
        &[
            ("refused", 0, 1),
            ("begun", 1, 1),
            ("begun", 2, 1),
            ("waited", 200, 1),
            ("moment", 200, 1),
            ("begun", 0, 1),
        ],
    );
    drop(w);
    assert!(rt; is_read?);
    assert!(rt; is_told);
    Ok(())
}

// Begins a job with its heartbeat, makes two turns, and offers.
fn begins_at_last<W: World>(l: &mut Loop, w: &mut W, buf: &mut [u8]) -> bool
    requires fresh { IsFresh 0 l.old }
    requires sound { IsSound l.old }
    requires buf { 0 < length buf.old }
{
    start(l, w, 0, true)
        && turn(l, w, buf) == Some(200)
        && turn(l, w, buf) == Some(400)
        && serve(l, w, buf)
}

// The same by a new loop.
fn begins_by_a_loop<W: World>(alloc: Global, w: &mut W) -> Result<bool, NoMemory> {
    let mut l = Loop::new(alloc, 9)?;
    let mut buf = [0; 16];
    let is_begun = begins_at_last(&mut l, w, &mut buf);
    drop(l);
    Ok(is_begun)
}

#[test]
fn eight_refused_connects_take_400_ms(rt: HostRuntime) -> Result<(), Fail> {
    let alloc = rt.alloc();
    let mut w = world(alloc, founts(alloc, 1, 0, 0)?, &[], 8)?;
    let is_begun = begins_by_a_loop(alloc, &mut w);
    let is_told = tells(
        &w,
        &[
            ("refused", 0, 1),
            ("refused", 1, 1),
            ("refused", 2, 1),
            ("refused", 3, 1),
            ("waited", 200, 1),
            ("moment", 200, 1),
            ("refused", 0, 1),
            ("refused", 1, 1),
            ("refused", 2, 1),
            ("refused", 3, 1),
            ("waited", 200, 1),
            ("moment", 400, 1),
            ("begun", 0, 1),
            ("begun", 1, 1),
            ("begun", 2, 1),
            ("begun", 3, 1),
        ],
    );
    drop(w);
    assert!(rt; is_begun?);
    assert!(rt; is_told);
    Ok(())
}

// The first wait of a loop of one turn fails, and there is no other.
fn fails_and_is_spent<W: World>(l: &mut Loop, w: &mut W, buf: &mut [u8]) -> bool
    requires may { MayWait l.old }
    requires buf { 0 < length buf.old }
{
    l.turn(w, None) == Err(LoopFault::NetFault { conn: None })
        && serve(l, w, buf)
        && l.turn(w, None) == Err(LoopFault::Spent)
}

// The same by a new loop.
fn spends_a_loop<W: World>(alloc: Global, w: &mut W) -> Result<bool, NoMemory> {
    let mut l = Loop::new(alloc, 1)?;
    let mut buf = [0; 16];
    let is_spent = fails_and_is_spent(&mut l, w, &mut buf);
    drop(l);
    Ok(is_spent)
}

#[test]
fn a_failed_wait_is_one_of_the_turns(rt: HostRuntime) -> Result<(), Fail> {
    let alloc = rt.alloc();
    let mut w = world(alloc, founts(alloc, 1, 0, 0)?, &[0], 0)?;
    let is_spent = spends_a_loop(alloc, &mut w);
    let is_told = tells(&w, &[("waited", 500, 1)]);
    drop(w);
    assert!(rt; is_spent?);
    assert!(rt; is_told);
    Ok(())
}

// Begins 16 jobs, makes a turn, reads what it reported, and waits once more.
fn reads_all_jobs<W: World>(l: &mut Loop, w: &mut W, buf: &mut [u8]) -> bool
    requires fresh { (p : ℕ) → known_at l.old p ≡ false }
    requires sound { IsSound l.old }
    requires buf { 0 < length buf.old }
{
    start_all(l, w) && turn(l, w, buf) == Some(0) && turn(l, w, buf) == Some(0)
}

// The same by a new loop.
fn all_by_a_loop<W: World>(alloc: Global, w: &mut W) -> Result<bool, NoMemory> {
    let mut l = Loop::new(alloc, 9)?;
    let mut buf = [0; 8];
    let is_read = reads_all_jobs(&mut l, w, &mut buf);
    drop(l);
    Ok(is_read)
}

#[test]
fn one_connection_that_always_has_bytes_holds_up_no_other(rt: HostRuntime) -> Result<(), Fail> {
    let alloc = rt.alloc();
    let mut w = world(alloc, founts(alloc, 16, 1_000_000, 1)?, &[], 0)?;
    let is_read = all_by_a_loop(alloc, &mut w);
    let found = reads(&w);
    drop(w);
    assert!(rt; is_read?);
    assert_eq!(rt; found[0], 64);
    for place in 1..64usize {
        assert_eq!(rt; found[place], 1, "{place}");
    }
    Ok(())
}
