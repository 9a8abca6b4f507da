//! Feeding a decoder with messages of one frame, in pieces.
ghost use Rattle.std.specs.Prelude.{◌≡◌, ◌<◌, ◌≤◌, ◌∷◌, [], IfOk, replicate};
ghost use Rattle.zmtp_wire.specs.Writing.{message_octets};

use anyhow::{Result, bail};
use jtext::{Bytes, NoMemory};
use std::alloc::Global;
use std::time::Instant;
use zmtp_wire::{Decoder, Messages, Parts, Role, greeting, put_message, put_ready};

/// Feeds `count` messages of `size` octets in pieces of `piece` octets.
pub fn measure(rt: &HostRuntime, size: u32, piece: u32, count: u32) -> Result<()> {
    if piece == 0 || size > 1 << 26 {
        bail!("a piece has at least one octet, a message at most 64 MiB");
    }
    match stream(rt.alloc(), size, count) {
        Ok(stream) => {
            let end = measure_stream(rt, stream.bytes(), piece);
            drop(stream);
            end
        }
        Err(_) => bail!("no memory"),
    }
}

fn measure_stream(rt: &HostRuntime, stream: &[u8], piece: u32) -> Result<()>
    requires { 0 < piece }
{
    let mut decoder = Decoder::new(rt.alloc(), Role::Sub);
    let end = time_feed(rt, &mut decoder, stream, piece);
    drop(decoder);
    end
}

fn time_feed(rt: &HostRuntime, decoder: &mut Decoder, stream: &[u8], piece: u32) -> Result<()>
    requires { 0 < piece }
{
    let start = Instant::now(rt)?;
    let found = feed_all(rt.alloc(), decoder, stream, piece)?;
    let fed = start.elapsed(rt)?.as_millis();
    let octets = stream.len();
    println!(rt; "feed {fed}")?;
    println!(rt; "octets {octets} messages {found}")?;
    Ok(())
}

// How many messages the stream brings.
fn feed_all(alloc: Global, decoder: &mut Decoder, stream: &[u8], piece: u32) -> Result<usize>
    requires { 0 < piece }
{
    let mut found = 0usize;
    for part in stream.chunks(piece as usize) {
        found = found.saturating_add(feed(alloc, decoder, part)?);
    }
    Ok(found)
}

// How many messages the piece brings.
fn feed(alloc: Global, decoder: &mut Decoder, part: &[u8]) -> Result<usize> {
    let mut messages = Messages::new(alloc);
    let is_broken = decoder.feed(part, &mut messages).is_err();
    let found = messages.len();
    drop(messages);
    if is_broken {
        bail!("the stream is broken");
    }
    Ok(found)
}

// What a PUB sends: greeting, READY, and the messages.
fn stream(alloc: Global, size: u32, count: u32) -> Result<Bytes, NoMemory>
    requires { size ≤ 67108864 }
{
    let mut octets = Bytes::of(alloc, &greeting())?;
    put_ready(alloc, Role::Pub, &mut octets)?;
    let message = message(alloc, size)?;
    for _ in 0..count {
        octets.add(message.bytes())?;
    }
    Ok(octets)
}

// A message of one frame with so many octets.
fn message(alloc: Global, size: u32) -> Result<Bytes, NoMemory>
    requires { size ≤ 67108864 }
    ensures { IfOk result (λ octets. octets ≡ message_octets (replicate size 97 ∷ [])) }
{
    let body = vec![in alloc; 97u8; size as usize]?;
    let mut parts = Parts::new(alloc);
    parts.push(Bytes::of_vec(body))?;
    let mut octets = Bytes::new(alloc);
    put_message(alloc, &parts, &mut octets)?;
    Ok(octets)
}
