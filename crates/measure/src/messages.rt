//! Decoding signed messages.
use anyhow::{Result, bail};
use jmsg::{Decoded, decode, decode_under};
use jsign::{Signer, check, sign};
use jtext::{Bytes, NoMemory};
use std::alloc::Global;
use std::time::Instant;
use zmtp_wire::Parts;

const KEY: &[u8] = b"b5a1c1f6-3d0e-4c1a-9b0f-0123456789ab";

const HEADER: &[u8] =
    b"{\"msg_id\":\"0_1\",\"session\":\"s\",\"username\":\"k\",\"date\":\"2000-01-01T00:00:00.000Z\",\"msg_type\":\"stream\",\"version\":\"5.3\"}";

const PARENT: &[u8] = b"{\"msg_id\":\"1_1\",\"msg_type\":\"execute_request\"}";

/// Decodes one stream message `count` times, whose text has `size` octets: under the key, untimed and
/// timed, then under a signer that was made of it once; then signs its frames as often.
pub fn measure(rt: &HostRuntime, count: u32, size: u32) -> Result<()> {
    match message(rt.alloc(), size) {
        Ok(parts) => measure_parts(rt, count, &parts),
        Err(_) => bail!("no memory"),
    }
}

fn measure_parts(rt: &HostRuntime, count: u32, parts: &Parts) -> Result<()> {
    // Once untimed, since a processor that has been idle is slow at first.
    let warm = decode_all(rt.alloc(), count, parts);
    let plain = time_decode(rt, count, parts)?;
    let under = time_decode_under(rt, count, parts)?;
    let good = warm.saturating_add(plain).saturating_add(under);
    println!(rt; "good {good}")?;
    time_signatures(rt, count, parts)
}

// How often the parts were decoded.
fn time_decode(rt: &HostRuntime, count: u32, parts: &Parts) -> Result<u32> {
    let start = Instant::now(rt)?;
    let good = decode_all(rt.alloc(), count, parts);
    print_since(rt, "decode", start)?;
    Ok(good)
}

fn time_decode_under(rt: &HostRuntime, count: u32, parts: &Parts) -> Result<u32> {
    let signer = Signer::new(KEY);
    let start = Instant::now(rt)?;
    let good = decode_all_under(rt.alloc(), count, &signer, parts);
    print_since(rt, "decode_under", start)?;
    Ok(good)
}

// The part of decoding that is the signature.
fn time_signatures(rt: &HostRuntime, count: u32, parts: &Parts) -> Result<()> {
    let start = Instant::now(rt)?;
    let right = check_all(count, parts.as_slice());
    print_since(rt, "check", start)?;
    println!(rt; "right {right}")?;
    Ok(())
}

fn print_since(rt: &HostRuntime, name: &str, start: Instant) -> Result<()> {
    let took = start.elapsed(rt)?.as_millis();
    println!(rt; "{name} {took}")?;
    Ok(())
}

fn decode_all(alloc: Global, count: u32, parts: &Parts) -> u32 {
    let mut good = 0u32;
    for _ in 0..count {
        if is_good(decode(alloc, KEY, parts)) {
            good = good.saturating_add(1);
        }
    }
    good
}

fn decode_all_under(alloc: Global, count: u32, signer: &Signer, parts: &Parts) -> u32 {
    let mut good = 0u32;
    for _ in 0..count {
        if is_good(decode_under(alloc, signer, parts)) {
            good = good.saturating_add(1);
        }
    }
    good
}

fn is_good(decoded: Result<Decoded, NoMemory>) -> bool {
    matches!(&decoded, Ok(Decoded::Good(_)))
}

// How often the signature held.
fn check_all(count: u32, parts: &[Bytes]) -> u32 {
    let mut right = 0u32;
    for _ in 0..count {
        if is_signed(parts) {
            right = right.saturating_add(1);
        }
    }
    right
}

fn is_signed(parts: &[Bytes]) -> bool {
    let [_, expected, header, parent, metadata, content] = parts else {
        return false;
    };
    check(
        KEY,
        header.bytes(),
        parent.bytes(),
        metadata.bytes(),
        content.bytes(),
        expected.bytes(),
    )
}

fn message(alloc: Global, size: u32) -> Result<Parts, NoMemory> {
    let content = content(alloc, size)?;
    let mut parts = Parts::new(alloc);
    push_head(alloc, &mut parts, content.bytes())?;
    parts.push(content)?;
    Ok(parts)
}

// The frames in front of the content.
fn push_head(alloc: Global, parts: &mut Parts, content: &[u8]) -> Result<(), NoMemory> {
    let signature = sign(KEY, HEADER, PARENT, b"{}", content);
    push(alloc, parts, b"<IDS|MSG>")?;
    push(alloc, parts, &signature)?;
    push(alloc, parts, HEADER)?;
    push(alloc, parts, PARENT)?;
    push(alloc, parts, b"{}")
}

fn push(alloc: Global, parts: &mut Parts, octets: &[u8]) -> Result<(), NoMemory> {
    parts.push(Bytes::of(alloc, octets)?)
}

// The content of a stream message.
fn content(alloc: Global, size: u32) -> Result<Bytes, NoMemory> {
    let text = vec![in alloc; 97u8; size as usize]?;
    let mut content = Bytes::of(alloc, b"{\"name\":\"stdout\",\"text\":\"")?;
    content.add(text.as_slice())?;
    content.add(b"\"}")?;
    Ok(content)
}
