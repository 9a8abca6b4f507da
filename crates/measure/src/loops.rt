//! The times of a loop.
use crate::spout::spouting;
use crate::steps::{puts, reads, start_all, turns};
use anyhow::{Result, bail};
use jtext::Bytes;
use ready_loop::Loop;
use std::time::Instant;

/// The bytes of one read.
const PIECE: usize = 65_536;

/// How many such pieces 64 MiB are, in 16 turns of 64 reads.
const PIECES: u32 = 1_024;

/// Times turns, 64 MiB that are read and 64 MiB that are written.
pub fn measure(rt: &HostRuntime, count: u32) -> Result<()> {
    one_awake(rt, count)?;
    read(rt)?;
    read_plainly(rt)?;
    write(rt)
}

// A turn with 64 connections of which one is awake, and gives 8 bytes.
fn one_awake(rt: &HostRuntime, count: u32) -> Result<()> {
    let alloc = rt.alloc();
    let mut w = spouting(8);
    let Ok(mut l) = Loop::new(alloc, u64::from(count)) else {
        bail!("no memory");
    };
    let mut buf = vec![in alloc; 0u8; PIECE]?;
    if buf.is_empty() || !start_all(&mut l, &mut w) {
        bail!("not begun");
    }
    let start = Instant::now(rt)?;
    if !turns(&mut l, &mut w, &mut buf, count) {
        bail!("not turned");
    }
    let took = start.elapsed(rt)?.as_nanos() / u128::from(count.max(1));
    println!(rt; "turn_ns {took}")?;
    Ok(())
}

// 64 MiB through one of 64 connections.
fn read(rt: &HostRuntime) -> Result<()> {
    let alloc = rt.alloc();
    let mut w = spouting(64 * PIECE);
    let Ok(mut l) = Loop::new(alloc, 17) else {
        bail!("no memory");
    };
    let mut buf = vec![in alloc; 0u8; PIECE]?;
    if buf.is_empty() || !start_all(&mut l, &mut w) {
        bail!("not begun");
    }
    let start = Instant::now(rt)?;
    if !turns(&mut l, &mut w, &mut buf, 17) {
        bail!("not read");
    }
    let took = start.elapsed(rt)?.as_micros();
    println!(rt; "read_us {took}")?;
    Ok(())
}

// The same reads without a loop.
fn read_plainly(rt: &HostRuntime) -> Result<()> {
    let alloc = rt.alloc();
    let mut w = spouting(PIECES as usize * PIECE);
    let mut buf = vec![in alloc; 0u8; PIECE]?;
    if buf.is_empty() {
        bail!("no buffer");
    }
    let start = Instant::now(rt)?;
    if !reads(&mut w, &mut buf, PIECES) {
        bail!("not read");
    }
    let took = start.elapsed(rt)?.as_micros();
    println!(rt; "read_plainly_us {took}")?;
    Ok(())
}

// 64 MiB that were queued at once, on one of 64 connections that takes 65,536 bytes at a time.
fn write(rt: &HostRuntime) -> Result<()> {
    let alloc = rt.alloc();
    let mut w = spouting(0);
    let Ok(mut l) = Loop::new(alloc, 1) else {
        bail!("no memory");
    };
    let bytes = Bytes::of_vec(vec![in alloc; 0u8; PIECES as usize * PIECE]?);
    let start = Instant::now(rt)?;
    if !puts(&mut l, &mut w, bytes) {
        bail!("not written");
    }
    let took = start.elapsed(rt)?.as_micros();
    println!(rt; "write_us {took}")?;
    Ok(())
}
