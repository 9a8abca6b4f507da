//! What is due on a connection, and when.
use jtext::{Bytes, NoMemory};
use kernel_lines::Line;
use std::alloc::Global;
use std::process::Abort;
use std::test::Fail;
use zmtp_wire::{Parts, Role, greeting};

const ROUTER: &[u8] = b"\x04\x1C\x05READY\x0BSocket-Type\0\0\0\x06ROUTER";

const PUB: &[u8] = b"\x04\x19\x05READY\x0BSocket-Type\0\0\0\x03PUB";

fn start(alloc: Global, ready: &[u8]) -> Result<Bytes, NoMemory> {
    let mut octets = Bytes::of(alloc, &greeting())?;
    octets.add(ready)?;
    Ok(octets)
}

fn hears(line: &mut Line, octets: &[u8]) -> Result<bool, NoMemory> {
    let (messages, fault) = line.feed(octets)?;
    Ok(messages.len() == 0 && fault.is_none())
}

fn hands_out(line: &mut Line, octets: &[u8]) -> bool {
    match line.take() {
        Some(bytes) => bytes.bytes() == octets,
        None => octets.is_empty(),
    }
}

/// One message is sent before the end of the handshake, and one after it.
fn expect_messages(rt: &impl Abort, alloc: Global, line: &mut Line) -> Result<(), Fail> {
    assert!(rt; line.take().is_some());
    say_x(alloc, line)?;
    assert!(rt; hands_out(line, b""));
    let peer = start(alloc, ROUTER)?;
    assert!(rt; hears(line, peer.bytes())?);
    assert!(rt; hands_out(line, b"\0\x01x"));
    say_x(alloc, line)?;
    assert!(rt; hands_out(line, b"\0\x01x"));
    Ok(())
}

#[test]
fn a_message_waits_for_the_end_of_the_handshake(rt: HostRuntime) -> Result<(), Fail> {
    let mut line = Line::new(rt.alloc(), Role::Dealer)?;
    let end = expect_messages(&rt, rt.alloc(), &mut line);
    drop(line);
    end
}

fn say_x(alloc: Global, line: &mut Line) -> Result<(), NoMemory> {
    let mut parts = Parts::new(alloc);
    parts.push(Bytes::of(alloc, b"x")?)?;
    line.send(&parts)
}

#[test]
fn a_sub_subscribes_once_the_handshake_is_finished(rt: HostRuntime) -> Result<(), Fail> {
    let mut line = Line::new(rt.alloc(), Role::Sub)?;
    assert!(rt; line.take().is_some());
    let peer = start(rt.alloc(), PUB)?;
    assert!(rt; hears(&mut line, peer.bytes())?);
    assert!(rt; hands_out(&mut line, b"\x04\x0A\x09SUBSCRIBE"));
    let due = line.due();
    line.on_taken(due.saturating_sub(1));
    assert!(rt; !line.is_subscribed());
    line.on_taken(due);
    assert!(rt; line.is_subscribed());
    Ok(())
}
