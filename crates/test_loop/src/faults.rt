//! Calls of the world that fail under a loop, each told with its connection, and looks that spend it.
ghost use Rattle.std.specs.Prelude.{◌<◌, length};
ghost use Rattle.ready_loop.specs.Begins.{IsFresh};
ghost use Rattle.ready_loop.specs.States.{IsSound, MayWait};

use crate::steps::{PORTS, serve, start, turn};
use crate::worlds::{founts, world};
use jtext::{Bytes, NoMemory};
use ready_loop::{Loop, LoopFault, Next};
use std::alloc::Global;
use std::test::Fail;
use world::{Chan, Conn, World};

const SHELL: Conn = Conn {
    job: 0,
    chan: Chan::Shell,
};

/// The fault of a call on the shell of job 0.
const SHELL_FAULT: LoopFault = LoopFault::NetFault { conn: Some(SHELL) };

// Begins job 0 by a new loop, up to a connect that fails.
fn begins_to_a_fault<W: World>(alloc: Global, w: &mut W, chan: Chan) -> Result<bool, NoMemory> {
    let mut l = Loop::new(alloc, 1)?;
    let conn = Some(Conn { job: 0, chan });
    let is_told = l.begin(w, 0, PORTS, true) == Err(LoopFault::NetFault { conn });
    drop(l);
    Ok(is_told)
}

// Whether the connect with this number, which fails, is told as that of this channel.
fn is_connect_told(alloc: Global, number: u64, chan: Chan) -> Result<bool, NoMemory> {
    let mut w = world(alloc, founts(alloc, 1, 0, 0)?, &[number], 0)?;
    let is_told = begins_to_a_fault(alloc, &mut w, chan);
    drop(w);
    is_told
}

#[test]
fn a_failed_connect_is_told_with_its_connection(rt: HostRuntime) -> Result<(), Fail> {
    let rows = [
        (0, Chan::Shell),
        (1, Chan::Control),
        (2, Chan::Iopub),
        (3, Chan::Heart),
    ];
    for (number, chan) in rows {
        assert!(rt; is_connect_told(rt.alloc(), number, chan)?, "{number}");
    }
    Ok(())
}

// A read fails, and nothing is read of that connection from then on.
fn reads_to_a_fault<W: World>(l: &mut Loop, w: &mut W, buf: &mut [u8]) -> bool
    requires fresh { IsFresh 0 l.old }
    requires sound { IsSound l.old }
    requires buf { 0 < length buf.old }
{
    start(l, w, 0, false)
        && turn(l, w, buf).is_some()
        && l.next(w, buf) == Err(SHELL_FAULT)
        && l.next(w, buf) == Ok(Next::Quiet)
}

// The same by a new loop.
fn reads_by_a_loop<W: World>(alloc: Global, w: &mut W) -> Result<bool, NoMemory> {
    let mut l = Loop::new(alloc, 9)?;
    let mut buf = [0; 4];
    let is_told = reads_to_a_fault(&mut l, w, &mut buf);
    drop(l);
    Ok(is_told)
}

/// The calls before it are three connects, a wait and the clock.
#[test]
fn a_failed_read_is_told_with_its_connection(rt: HostRuntime) -> Result<(), Fail> {
    let alloc = rt.alloc();
    let mut w = world(alloc, founts(alloc, 1, 9, 0)?, &[5], 0)?;
    let is_told = reads_by_a_loop(alloc, &mut w);
    drop(w);
    assert!(rt; is_told?);
    Ok(())
}

// A write fails, and nothing is written to that connection from then on.
fn writes_to_a_fault<W: World>(l: &mut Loop, w: &mut W, alloc: Global) -> Result<bool, NoMemory>
    requires { IsFresh 0 l.old }
{
    if !start(l, w, 0, false) {
        return Ok(false);
    }
    l.queue(SHELL, Bytes::of(alloc, b"abc")?)?;
    let is_told = l.offer(w) == Err(SHELL_FAULT);
    Ok(is_told && l.offer(w) == Ok([false; 64]) && l.taken(SHELL) == 0)
}

// The same by a new loop.
fn writes_by_a_loop<W: World>(alloc: Global, w: &mut W) -> Result<bool, NoMemory> {
    let mut l = Loop::new(alloc, 9)?;
    let is_told = writes_to_a_fault(&mut l, w, alloc);
    drop(l);
    is_told
}

/// The calls before it are three connects.
#[test]
fn a_failed_write_is_told_with_its_connection(rt: HostRuntime) -> Result<(), Fail> {
    let alloc = rt.alloc();
    let mut w = world(alloc, founts(alloc, 1, 0, 0)?, &[3], 0)?;
    let is_told = writes_by_a_loop(alloc, &mut w);
    drop(w);
    assert!(rt; is_told?);
    Ok(())
}

// Looks once, and no more.
fn looks_once<W: World>(l: &mut Loop, w: &mut W, buf: &mut [u8]) -> bool
    requires may { MayWait l.old }
    requires buf { 0 < length buf.old }
{
    l.look(w, [true; 16]) == Ok([false; 64])
        && serve(l, w, buf)
        && l.look(w, [true; 16]) == Err(LoopFault::Spent)
}

// The same by a new loop of one turn.
fn looks_by_a_loop<W: World>(alloc: Global, w: &mut W) -> Result<bool, NoMemory> {
    let mut l = Loop::new(alloc, 1)?;
    let mut buf = [0; 4];
    let is_spent = looks_once(&mut l, w, &mut buf);
    drop(l);
    Ok(is_spent)
}

#[test]
fn a_look_is_one_of_the_turns(rt: HostRuntime) -> Result<(), Fail> {
    let alloc = rt.alloc();
    let mut w = world(alloc, founts(alloc, 1, 0, 0)?, &[], 0)?;
    let is_spent = looks_by_a_loop(alloc, &mut w);
    drop(w);
    assert!(rt; is_spent?);
    Ok(())
}
