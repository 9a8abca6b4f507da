//! One loop over a world that talks back.
ghost use Rattle.std.specs.Prelude.{◌≡◌, IfOk, IsTrue, true};
ghost use Rattle.world.specs.Places.{place_of};
ghost use Rattle.ready_loop.specs.Begins.{IsFresh};
ghost use Rattle.ready_loop.specs.History.{conn_on};
ghost use Rattle.ready_loop.specs.States.{IsDrained, IsOffered, IsSound, MayWait, known_at};

use crate::talk::{TalkWorld, talk_world};
use jtext::{Bytes, NoMemory};
use ready_loop::{Loop, Next};
use std::alloc::Global;
use std::test::Fail;
use world::{Chan, Conn, World};

const SHELL: Conn = Conn {
    job: 0,
    chan: Chan::Shell,
};

// Begins job 0.
fn start<W: World>(l: &mut Loop, w: &mut W) -> bool
    requires { IsFresh 0 l.old }
    ensures known { IsTrue result → known_at l.new (place_of (conn_on 0 Chan.Shell)) ≡ true }
    ensures drained { IsDrained l.old → IsDrained l.new }
    ensures sound { IsTrue result → IsSound l.old → IsSound l.new }
{
    match l.begin(w, 0, [1, 2, 3, 4, 5], true) {
        Ok(()) => true,
        Err(_) => false,
    }
}

// Whether there is nothing to read.
fn is_quiet<W: World>(l: &mut Loop, w: &mut W) -> bool
    ensures drained { IsTrue result → IsDrained l.new }
    ensures sound { IsTrue result → IsSound l.old → IsSound l.new }
{
    let mut buf = [0; 8];
    match l.next(w, &mut buf) {
        Ok(Next::Quiet) => true,
        _ => false,
    }
}

// Whether an offer names just these.
fn names<W: World>(l: &mut Loop, w: &mut W, wanted: [bool; 64]) -> bool
    ensures offered { IsTrue result → IsOffered l.new }
    ensures drained { IsDrained l.old → IsDrained l.new }
    ensures sound { IsTrue result → IsSound l.old → IsSound l.new }
{
    match l.offer(w) {
        Ok(names) => names == wanted,
        Err(_) => false,
    }
}

// Whether the next read brings this byte.
fn brings<W: World>(l: &mut Loop, w: &mut W, byte: u8) -> bool
    ensures { IsTrue result → IsSound l.old → IsSound l.new }
{
    let mut buf = [0; 8];
    match l.next(w, &mut buf) {
        Ok(Next::Piece { conn, n }) => conn == SHELL && n == 1 && buf[0] == byte,
        _ => false,
    }
}

// Begins job 0, and queues two pieces on its shell.
fn queue_two<W: World>(l: &mut Loop, w: &mut W, alloc: Global) -> Result<bool, NoMemory>
    requires { IsFresh 0 l.old }
    ensures { IfOk result (λ b. IsTrue b → IsSound l.old → IsSound l.new) }
{
    if !start(l, w) {
        return Ok(false);
    }
    l.queue(SHELL, Bytes::of(alloc, b"abcd")?)?;
    l.queue(SHELL, Bytes::of(alloc, b"ef")?)?;
    Ok(true)
}

// Three bytes of them go out, two come after a wait, and then the others go out.
fn sends_in_order(l: &mut Loop, w: &mut TalkWorld) -> bool
    requires { IsSound l.old }
{
    let first = is_quiet(l, w)
        && names(l, w, [false; 64])
        && l.taken(SHELL) == 3
        && w.talk.has_put(b"abc")
        && l.turn(w, None) == Ok(100);
    first
        && brings(l, w, 1)
        && brings(l, w, 2)
        && is_quiet(l, w)
        && names(l, w, [false; 64])
        && l.taken(SHELL) == 6
        && w.talk.has_put(b"abcdef")
}

// The same by a new loop.
fn sends_by_a_loop(alloc: Global, w: &mut TalkWorld) -> Result<bool, NoMemory> {
    let mut l = Loop::new(alloc, 9)?;
    let is_sent = queue_two(&mut l, w, alloc)? && sends_in_order(&mut l, w);
    drop(l);
    Ok(is_sent)
}

#[test]
fn queued_bytes_go_out_in_order_and_what_comes_is_read(rt: HostRuntime) -> Result<(), Fail> {
    let mut w = talk_world();
    assert!(rt; sends_by_a_loop(rt.alloc(), &mut w)?);
    Ok(())
}

// Ends the connection of job 0, and sees a write find it, once.
fn finds_by_a_write(
    l: &mut Loop,
    w: &mut TalkWorld,
    alloc: Global,
    named: [bool; 64],
) -> Result<bool, NoMemory>
    requires { IsFresh 0 l.old }
{
    if !start(l, w) {
        return Ok(false);
    }
    l.queue(SHELL, Bytes::of(alloc, b"abcd")?)?;
    w.talk.ends = true;
    Ok(names(l, w, named) && names(l, w, [false; 64]))
}

// The same where a read finds it.
fn finds_by_a_read(l: &mut Loop, w: &mut TalkWorld) -> bool
    requires fresh { IsFresh 0 l.old }
    requires may { MayWait l.old }
{
    let is_up = start(l, w) && names(l, w, [false; 64]) && l.turn(w, None) == Ok(100);
    w.talk.ends = true;
    let mut buf = [0; 8];
    is_up
        && l.next(w, &mut buf) == Ok(Next::Ended(SHELL))
        && is_quiet(l, w)
        && names(l, w, [false; 64])
}

// A write of a new loop finds the end.
fn writes_to_an_end(alloc: Global, named: [bool; 64]) -> Result<bool, NoMemory> {
    let mut w = talk_world();
    let mut l = Loop::new(alloc, 9)?;
    let is_found = finds_by_a_write(&mut l, &mut w, alloc, named);
    drop(l);
    is_found
}

// A read of a new loop finds the end.
fn reads_to_an_end(alloc: Global) -> Result<bool, NoMemory> {
    let mut w = talk_world();
    let mut l = Loop::new(alloc, 9)?;
    let is_found = finds_by_a_read(&mut l, &mut w);
    drop(l);
    Ok(is_found)
}

#[test]
fn an_end_is_told_once(rt: HostRuntime) -> Result<(), Fail> {
    let mut named = [false; 64];
    named[0] = true;
    assert!(rt; writes_to_an_end(rt.alloc(), named)?);
    assert!(rt; reads_to_an_end(rt.alloc())?);
    Ok(())
}
