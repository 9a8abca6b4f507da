//! Octets from the standard and from libzmq 4.3.4, whose PUB was bound and read over a plain
//! connection.

use crate::joined::{put_joined, single};
use jtext::{Bytes, NoMemory};
use std::alloc::Global;
use std::process::Abort;
use std::test::Fail;
use zmtp_peer::{Peer, is_body};
use zmtp_wire::{Messages, Role, WireFault, greeting, put_ready};

/// The start of a side, with this minor version, and then the tail.
fn octets_of(alloc: Global, role: Role, minor: u8, tail: &[u8]) -> Result<Bytes, NoMemory> {
    let mut octets = Bytes::of(alloc, &greeting())?;
    if 11 < octets.len() {
        octets.put(11, minor);
    }
    put_ready(alloc, role, &mut octets)?;
    octets.add(tail)?;
    Ok(octets)
}

/// Gives the peer these octets, and appends the messages that came.
fn feed(alloc: Global, peer: &mut Peer, octets: &[u8], out: &mut Bytes) -> Result<(), Fail> {
    let mut came = Messages::new(alloc);
    peer.feed(octets, &mut came)?;
    put_joined(&came, out)?;
    Ok(())
}

/// A peer of this role that was fed the start of the other side, with this minor version, and then
/// the tail.
fn fed(
    rt: &HostRuntime,
    role: Role,
    other: Role,
    minor: u8,
    tail: &[u8],
    out: &mut Bytes,
) -> Result<Peer, Fail> {
    let octets = octets_of(rt.alloc(), other, minor, tail)?;
    let mut peer = Peer::new(rt.alloc(), role);
    let end = feed(rt.alloc(), &mut peer, octets.bytes(), out);
    drop(octets);
    end?;
    Ok(peer)
}

/// What a SUB says first.
fn start_of_sub(alloc: Global) -> Result<Bytes, NoMemory> {
    let mut out = Bytes::new(alloc);
    let peer = Peer::new(alloc, Role::Sub);
    let end = peer.start_bytes(&mut out);
    drop(peer);
    end?;
    Ok(out)
}

#[test]
fn a_side_starts_with_greeting_and_ready_alone(rt: HostRuntime) -> Result<(), Fail> {
    let out = start_of_sub(rt.alloc())?;
    assert_eq!(rt; out.len(), 91);
    assert_eq!(rt; out.get(11), Some(&1));
    assert!(rt;
        out.bytes()
            .ends_with(b"\x04\x19\x05READY\x0BSocket-Type\0\0\0\x03SUB")
    );
    Ok(())
}

/// What a peer of this role says to send one part.
fn ping_of(alloc: Global, role: Role) -> Result<Bytes, NoMemory> {
    let mut out = Bytes::new(alloc);
    let ping = single(alloc, b"ping")?;
    let peer = Peer::new(alloc, role);
    let end = peer.message_bytes(&ping, &mut out);
    drop(peer);
    drop(ping);
    end?;
    Ok(out)
}

#[test]
fn a_request_has_an_empty_frame_first(rt: HostRuntime) -> Result<(), Fail> {
    let rows: [(Role, &[u8]); 3] = [
        (Role::Req, b"\x01\0\x00\x04ping"),
        (Role::Rep, b"\x01\0\x00\x04ping"),
        (Role::Dealer, b"\x00\x04ping"),
    ];
    for (role, wanted) in rows {
        let out = ping_of(rt.alloc(), role)?;
        assert_eq!(rt; out.bytes(), wanted, "{role:?}");
    }
    let ping = single(rt.alloc(), b"ping")?;
    let is_sent = is_body(&ping);
    drop(ping);
    assert!(rt; is_sent);
    Ok(())
}

/// The messages that come to a peer of this role, and whether the handshake is over.
fn messages_to(
    rt: &HostRuntime,
    role: Role,
    other: Role,
    tail: &[u8],
) -> Result<(Bytes, bool), Fail> {
    let mut out = Bytes::new(rt.alloc());
    let peer = fed(rt, role, other, 1, tail, &mut out)?;
    let shaken = peer.shaken();
    drop(peer);
    Ok((out, shaken))
}

#[test]
fn what_comes_has_no_envelope(rt: HostRuntime) -> Result<(), Fail> {
    let rows: [(Role, Role, &[u8], &[u8]); 4] = [
        (Role::Rep, Role::Req, b"\x01\0\x00\x04ping", b"ping|/"),
        // A message whose first frame isn't empty is passed over.
        (
            Role::Req,
            Role::Rep,
            b"\x01\x01a\x00\x01b\x01\0\x00\x01c",
            b"c|/",
        ),
        (Role::Dealer, Role::Router, b"\x01\0\x00\x01c", b"|c|/"),
        (Role::Sub, Role::Pub, b"\x01\x01t\x00\x01c", b"t|c|/"),
    ];
    for (role, other, tail, wanted) in rows {
        let (out, shaken) = messages_to(&rt, role, other, tail)?;
        assert_eq!(rt; out.bytes(), wanted, "{tail:?} to {role:?}");
        assert!(rt; shaken, "{role:?}");
    }
    Ok(())
}

#[test]
fn a_side_that_heard_nothing_owes_no_reply(rt: HostRuntime) -> Result<(), Fail> {
    let mut out = Bytes::new(rt.alloc());
    let mut peer = Peer::new(rt.alloc(), Role::Sub);
    let end = peer.replies(&mut out);
    drop(peer);
    end?;
    assert_eq!(rt; out.len(), 0);
    Ok(())
}

/// Appends what the peer owes, asked so many times.
fn add_replies(peer: &mut Peer, times: u8, out: &mut Bytes) -> Result<(), NoMemory> {
    for asked in 0..times {
        peer.replies(out)?;
    }
    Ok(())
}

/// What a SUB says to a PUB of this minor version, asked so many times.
fn replies_to(rt: &HostRuntime, minor: u8, tail: &[u8], times: u8) -> Result<Bytes, Fail> {
    let mut out = Bytes::new(rt.alloc());
    let mut peer = fed(rt, Role::Sub, Role::Pub, minor, tail, &mut out)?;
    let end = add_replies(&mut peer, times, &mut out);
    drop(peer);
    end?;
    Ok(out)
}

#[test]
fn a_subscription_is_given_once(rt: HostRuntime) -> Result<(), Fail> {
    let out = replies_to(&rt, 1, b"", 2)?;
    assert_eq!(rt; out.bytes(), b"\x04\x0A\x09SUBSCRIBE".as_slice());
    Ok(())
}

#[test]
fn each_ping_is_answered_once(rt: HostRuntime) -> Result<(), Fail> {
    let tail = b"\x04\x09\x04PING\0\x0Aab\x04\x08\x04PING\0\x0Ac";
    let out = replies_to(&rt, 1, tail, 2)?;
    assert_eq!(rt;
        out.bytes(),
        b"\x04\x0A\x09SUBSCRIBE\x04\x07\x04PONGab\x04\x06\x04PONGc".as_slice()
    );
    Ok(())
}

#[test]
fn a_side_of_version_3_0_is_asked_by_a_message_and_not_answered(
    rt: HostRuntime,
) -> Result<(), Fail> {
    let tail = b"\x04\x09\x04PING\0\x0Aab";
    let out = replies_to(&rt, 0, tail, 1)?;
    assert_eq!(rt; out.bytes(), b"\x00\x01\x01".as_slice());
    Ok(())
}

/// This piece is answered by the fault.
fn expect_answer(
    rt: &impl Abort,
    peer: &mut Peer,
    piece: &[u8],
    out: &mut Messages,
    fault: WireFault,
) {
    assert_eq!(rt; peer.feed(piece, out), Err(fault));
}

/// A fault at octet 105, which what comes after it brings again, and no message.
fn expect_fault(rt: &impl Abort, alloc: Global, peer: &mut Peer) {
    let mut more = Messages::new(alloc);
    let fault = WireFault::Flags { at: 105 };
    expect_answer(rt, peer, b"\x08", &mut more, fault);
    expect_answer(rt, peer, b"\x00\x01B", &mut more, fault);
    assert_eq!(rt; more.len(), 0);
}

/// What is owed to the side is given after the fault too.
fn expect_replies(rt: &impl Abort, alloc: Global, peer: &mut Peer) -> Result<(), Fail> {
    expect_fault(rt, alloc, peer);
    let mut out = Bytes::new(alloc);
    peer.replies(&mut out)?;
    assert_eq!(rt;
        out.bytes(),
        b"\x04\x0A\x09SUBSCRIBE\x04\x07\x04PONGab".as_slice()
    );
    Ok(())
}

#[test]
fn a_broken_side_is_answered_too(rt: HostRuntime) -> Result<(), Fail> {
    let mut came = Bytes::new(rt.alloc());
    let mut peer = fed(
        &rt,
        Role::Sub,
        Role::Pub,
        1,
        b"\x04\x09\x04PING\0\x0Aab\x00\x01A",
        &mut came,
    )?;
    let end = expect_replies(&rt, rt.alloc(), &mut peer);
    drop(peer);
    end?;
    assert_eq!(rt; came.bytes(), b"A|/".as_slice());
    Ok(())
}

/// Whether a PUB to which a SUB said this wants the topic.
fn is_wanted(rt: &HostRuntime, tail: &[u8], topic: &[u8]) -> Result<bool, Fail> {
    let mut out = Bytes::new(rt.alloc());
    let peer = fed(rt, Role::Pub, Role::Sub, 1, tail, &mut out)?;
    let wants = peer.wants(topic);
    drop(peer);
    Ok(wants)
}

#[test]
fn a_publisher_keeps_its_subscriptions(rt: HostRuntime) -> Result<(), Fail> {
    let rows: [(&[u8], &[u8], bool); 8] = [
        (b"", b"toy", false),
        (b"\x00\x01\x01", b"toy", true),
        (b"\x00\x01\x01", b"", true),
        (b"\x04\x0B\x09SUBSCRIBEt", b"toy", true),
        (b"\x04\x0B\x09SUBSCRIBEt", b"u", false),
        (
            b"\x00\x02\x01t\x00\x02\x01t\x04\x08\x06CANCELt",
            b"toy",
            true,
        ),
        (
            b"\x00\x02\x01t\x00\x02\x01t\x04\x08\x06CANCELt\x00\x02\x00t",
            b"toy",
            false,
        ),
        (b"\x00\x02\x00t\x00\x02\x01t", b"t", true),
    ];
    for (tail, topic, wanted) in rows {
        let wants = is_wanted(&rt, tail, topic)?;
        assert_eq!(rt; wants, wanted, "{topic:?} after {tail:?}");
    }
    Ok(())
}

/// Gives the peer the octets one by one, and appends what it owes after each.
fn answer_each(
    peer: &mut Peer,
    octets: &[u8],
    came: &mut Messages,
    out: &mut Bytes,
) -> Result<(), Fail> {
    for octet in octets {
        peer.feed(&[*octet], came)?;
        peer.replies(out)?;
    }
    Ok(())
}

/// What a SUB answers to these octets.
fn answers_to(rt: &HostRuntime, octets: &[u8]) -> Result<Bytes, Fail> {
    let mut out = Bytes::new(rt.alloc());
    let mut came = Messages::new(rt.alloc());
    let mut peer = Peer::new(rt.alloc(), Role::Sub);
    let end = answer_each(&mut peer, octets, &mut came, &mut out);
    drop(peer);
    drop(came);
    end?;
    Ok(out)
}

#[test]
fn libzmq_is_answered(rt: HostRuntime) -> Result<(), Fail> {
    let octets =
        b"\xFF\0\0\0\0\0\0\0\x01\x7F\x03\x01NULL\0\0\0\0\0\0\0\0\0\0\0\0\0\0\0\0\0\0\0\0\0\0\0\0\0\0\0\0\0\0\0\0\0\0\0\0\0\0\0\0\0\0\0\0\0\0\0\0\x04\x19\x05READY\x0BSocket-Type\0\0\0\x03PUB\x04\x07\x04PING\0\0";
    let out = answers_to(&rt, octets)?;
    assert_eq!(rt;
        out.bytes(),
        b"\x04\x0A\x09SUBSCRIBE\x04\x05\x04PONG".as_slice()
    );
    Ok(())
}
