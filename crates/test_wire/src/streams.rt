//! Octets from the standard and from libzmq 4.3.4, whose sockets were bound and read over a plain
//! connection.

use crate::joined::{put_joined, single};
use jtext::{Bytes, NoMemory};
use std::alloc::Global;
use std::process::Abort;
use std::test::Fail;
use zmtp_wire::{
    Decoder, Messages, Parts, Role, Scan, WireFault, greeting, is_message, parts_len, put_message,
    put_ready, whole,
};

/// What libzmq's ROUTER sends first: octet 8 of its greeting is 1, and its READY has an empty
/// `Identity`.
const ROUTER: &[u8] =
    b"\xFF\0\0\0\0\0\0\0\x01\x7F\x03\x01NULL\0\0\0\0\0\0\0\0\0\0\0\0\0\0\0\0\0\0\0\0\0\0\0\0\0\0\0\0\0\0\0\0\0\0\0\0\0\0\0\0\0\0\0\0\0\0\0\0\x04\x29\x05READY\x0BSocket-Type\0\0\0\x06ROUTER\x08Identity\0\0\0\0";

/// What libzmq's PUB sends first, and then a PING.
const PUB: &[u8] =
    b"\xFF\0\0\0\0\0\0\0\x01\x7F\x03\x01NULL\0\0\0\0\0\0\0\0\0\0\0\0\0\0\0\0\0\0\0\0\0\0\0\0\0\0\0\0\0\0\0\0\0\0\0\0\0\0\0\0\0\0\0\0\0\0\0\0\x04\x19\x05READY\x0BSocket-Type\0\0\0\x03PUB\x04\x07\x04PING\0\0";

/// A greeting of version 3.0.
const OLD: &[u8] =
    b"\xFF\0\0\0\0\0\0\0\0\x7F\x03\0NULL\0\0\0\0\0\0\0\0\0\0\0\0\0\0\0\0\0\0\0\0\0\0\0\0\0\0\0\0\0\0\0\0\0\0\0\0\0\0\0\0\0\0\0\0\0\0\0\0";

/// The stream of a peer of this kind, 94 octets or 91 of handshake, and then the tail.
fn stream(rt: &HostRuntime, peer: Role, tail: &[u8]) -> Result<Bytes, NoMemory> {
    let mut octets = Bytes::of(rt.alloc(), &greeting())?;
    put_ready(rt.alloc(), peer, &mut octets)?;
    octets.add(tail)?;
    Ok(octets)
}

/// What a decoder tells of a stream that is fed in pieces of this size.
#[derive(Debug, Drop)]
struct Heard {
    messages: Bytes,
    owed: Bytes,
    answer: Result<(), WireFault>,
    shaken: bool,
    newer: Option<bool>,
}

/// Gives the decoder the octets in pieces of this size, and says what it answers to the last one.
fn feed_all(
    decoder: &mut Decoder,
    octets: &[u8],
    size: usize,
    out: &mut Messages,
) -> Result<(), WireFault> {
    let mut answer = Ok(());
    for piece in octets.chunks(size.max(1)) {
        answer = decoder.feed(piece, out);
    }
    answer
}

/// The contexts that are owed, each with a `|` behind it.
fn owed_text(alloc: Global, decoder: &mut Decoder) -> Result<Bytes, NoMemory> {
    let mut owed = Bytes::new(alloc);
    for context in decoder.owed().as_slice() {
        owed.add(context.bytes())?;
        owed.push(b'|')?;
    }
    Ok(owed)
}

fn summary(
    alloc: Global,
    decoder: &mut Decoder,
    out: &Messages,
    answer: Result<(), WireFault>,
) -> Result<Heard, NoMemory> {
    let mut messages = Bytes::new(alloc);
    put_joined(out, &mut messages)?;
    let owed = owed_text(alloc, decoder)?;
    Ok(Heard {
        messages,
        owed,
        answer,
        shaken: decoder.shaken(),
        newer: decoder.newer(),
    })
}

fn listen(rt: &HostRuntime, role: Role, octets: &[u8], size: usize) -> Result<Heard, Fail> {
    let mut out = Messages::new(rt.alloc());
    let mut decoder = Decoder::new(rt.alloc(), role);
    let answer = feed_all(&mut decoder, octets, size, &mut out);
    let heard = summary(rt.alloc(), &mut decoder, &out, answer);
    drop(decoder);
    drop(out);
    Ok(heard?)
}

/// Whether the decoder told what the plain reader found.
fn tells_of(alloc: Global, heard: &Heard, scan: &Scan) -> Result<bool, NoMemory> {
    let mut found = Bytes::new(alloc);
    put_joined(&scan.messages, &mut found)?;
    let answers = heard.answer == Ok(()) && heard.shaken == scan.shaken;
    Ok(answers && heard.messages.bytes() == found.bytes())
}

/// Whether the plain reader tells the same of these octets.
fn agrees(rt: &HostRuntime, role: Role, octets: &[u8], heard: &Heard) -> Result<bool, Fail> {
    match whole(rt.alloc(), role, octets) {
        Ok(scan) => {
            let same = tells_of(rt.alloc(), heard, &scan);
            drop(scan);
            Ok(same?)
        }
        Err(fault) => Ok(heard.answer == Err(fault)),
    }
}

/// Whether the plain reader and the decoder tell the same of each front of the octets.
fn agree_on_fronts(rt: &HostRuntime, role: Role, octets: &[u8]) -> Result<bool, Fail> {
    for len in 0..=octets.len() {
        let (front, _) = octets.split_at(len);
        let heard = listen(rt, role, front, 2)?;
        let same = agrees(rt, role, front, &heard);
        drop(heard);
        if !same? {
            return Ok(false);
        }
    }
    Ok(true)
}

/// Whether the plain reader and the decoder, in pieces of 1, 2, 3 and all octets, give this fault
/// and these messages, and agree on each front of the octets.
fn refuses(
    rt: &HostRuntime,
    role: Role,
    octets: &[u8],
    fault: WireFault,
    before: &[u8],
) -> Result<bool, Fail> {
    match whole(rt.alloc(), role, octets) {
        Ok(_) => return Ok(false),
        Err(found) => {
            if found != fault {
                return Ok(false);
            }
        }
    }
    for size in [1, 2, 3, octets.len()] {
        let heard = listen(rt, role, octets, size)?;
        if heard.answer != Err(fault) || heard.messages.bytes() != before {
            return Ok(false);
        }
    }
    agree_on_fronts(rt, role, octets)
}

/// Whether the plain reader finds these messages after a handshake.
fn scans(rt: &HostRuntime, role: Role, octets: &[u8], messages: &[u8]) -> Result<bool, Fail> {
    let mut found = Bytes::new(rt.alloc());
    let scan = whole(rt.alloc(), role, octets)?;
    let end = put_joined(&scan.messages, &mut found);
    let shaken = scan.shaken;
    drop(scan);
    end?;
    Ok(found.bytes() == messages && shaken)
}

fn tells(heard: &Heard, messages: &[u8], owed: &[u8], newer: bool) -> bool {
    let is_read = heard.answer == Ok(()) && heard.messages.bytes() == messages;
    let is_shaken = heard.shaken && heard.newer == Some(newer);
    is_read && heard.owed.bytes() == owed && is_shaken
}

/// Whether the plain reader and the decoder, in pieces of 1, 2, 3 and all octets, give these
/// messages and contexts, and agree on each front of the octets.
fn reads(
    rt: &HostRuntime,
    role: Role,
    octets: &[u8],
    messages: &[u8],
    owed: &[u8],
    newer: bool,
) -> Result<bool, Fail> {
    if !scans(rt, role, octets, messages)? {
        return Ok(false);
    }
    for size in [1, 2, 3, octets.len()] {
        let heard = listen(rt, role, octets, size)?;
        let is_so = tells(&heard, messages, owed, newer);
        drop(heard);
        if !is_so {
            return Ok(false);
        }
    }
    agree_on_fronts(rt, role, octets)
}

fn expect_ready(rt: &impl Abort, alloc: Global) -> Result<(), Fail> {
    let mut ready = Bytes::new(alloc);
    put_ready(alloc, Role::Dealer, &mut ready)?;
    assert_eq!(rt;
        ready.bytes(),
        b"\x04\x1C\x05READY\x0BSocket-Type\0\0\0\x06DEALER".as_slice()
    );
    Ok(())
}

/// A message with a short size.
fn expect_short(rt: &impl Abort, alloc: Global) -> Result<(), Fail> {
    let parts = single(alloc, b"A")?;
    let mut out = Bytes::new(alloc);
    let end = put_message(alloc, &parts, &mut out);
    drop(parts);
    end?;
    assert_eq!(rt; out.bytes(), b"\x00\x01A".as_slice());
    Ok(())
}

/// A message with a long size.
fn expect_long(rt: &impl Abort, alloc: Global) -> Result<(), Fail> {
    let parts = single(alloc, &[7; 256])?;
    let mut out = Bytes::new(alloc);
    let end = put_message(alloc, &parts, &mut out);
    drop(parts);
    end?;
    assert_eq!(rt; out.len(), 265);
    assert!(rt; out.bytes().starts_with(b"\x02\0\0\0\0\0\0\x01\0\x07"));
    Ok(())
}

fn expect_sizes(rt: &impl Abort, alloc: Global) -> Result<(), Fail> {
    let parts = single(alloc, &[7; 256])?;
    assert_eq!(rt; parts_len(&parts), 256);
    assert!(rt; is_message(&parts));
    assert!(rt; !is_message(&Parts::new(alloc)));
    Ok(())
}

#[test]
fn what_is_written_is_as_the_standard_has_it(rt: HostRuntime) -> Result<(), Fail> {
    expect_ready(&rt, rt.alloc())?;
    expect_short(&rt, rt.alloc())?;
    expect_long(&rt, rt.alloc())?;
    expect_sizes(&rt, rt.alloc())
}

/// How many messages a stream of a ROUTER with this tail has, the rest, and whether it is shaken.
fn scan_of(rt: &HostRuntime, tail: &[u8]) -> Result<(usize, u64, bool), Fail> {
    let octets = stream(rt, Role::Router, tail)?;
    let scan = whole(rt.alloc(), Role::Dealer, octets.bytes())?;
    let found = (scan.messages.len(), scan.rest, scan.shaken);
    drop(scan);
    Ok(found)
}

#[test]
fn a_stream_gives_its_messages_and_a_rest(rt: HostRuntime) -> Result<(), Fail> {
    let (messages, rest, shaken) = scan_of(&rt, b"\x00\x01A\x00")?;
    assert_eq!(rt; messages, 1);
    assert_eq!(rt; rest, 1);
    assert!(rt; shaken);
    let (messages, rest, _) = scan_of(&rt, b"\x02\0\0\0\0\x04\0\0\0")?;
    assert_eq!(rt; messages, 0);
    assert_eq!(rt; rest, 9);
    Ok(())
}

#[test]
fn what_peers_send_is_read(rt: HostRuntime) -> Result<(), Fail> {
    let tails: [(Role, Role, &[u8], &[u8], &[u8]); 13] = [
        // A second READY and commands that nobody knows are passed over, between frames too.
        (
            Role::Dealer,
            Role::Router,
            b"\x04\x06\x05READY\x01\x01a\x04\x02\x01x\x00\x01b",
            b"a|b|/",
            b"",
        ),
        // A long size that is small.
        (
            Role::Dealer,
            Role::Router,
            b"\x02\0\0\0\0\0\0\0\x01a\x00\0",
            b"a|/|/",
            b"",
        ),
        // Contexts of PINGs, in order; one of 17 octets is none.
        (
            Role::Sub,
            Role::Pub,
            b"\x04\x09\x04PING\0\x0Aab\x04\x08\x04PING\0\x0Ac",
            b"",
            b"ab|c|",
        ),
        (
            Role::Sub,
            Role::Pub,
            b"\x04\x18\x04PING\0\x0A01234567890123456",
            b"",
            b"",
        ),
        (
            Role::Sub,
            Role::Pub,
            b"\x04\x17\x04PING\0\x0A0123456789012345",
            b"",
            b"0123456789012345|",
        ),
        (Role::Sub, Role::Pub, b"\x04\x06\x04PING\0", b"", b""),
        // What SUBSCRIBE and CANCEL mean, to PUB alone.
        (
            Role::Pub,
            Role::Sub,
            b"\x04\x0B\x09SUBSCRIBEx\x04\x08\x06CANCELx",
            b"\x01x|/\0x|/",
            b"",
        ),
        (
            Role::Pub,
            Role::Sub,
            b"\x00\x02\x01y\x04\x0A\x09SUBSCRIBE",
            b"\x01y|/\x01|/",
            b"",
        ),
        (
            Role::Router,
            Role::Dealer,
            b"\x04\x0B\x09SUBSCRIBEx",
            b"",
            b"",
        ),
        (Role::Req, Role::Rep, b"\x01\0\x00\x04ping", b"|ping|/", b""),
        // What is nearly an ERROR: five octets of it, another last octet, and a frame.
        (Role::Req, Role::Rep, b"\x04\x05\x05ERRO", b"", b""),
        (Role::Req, Role::Rep, b"\x04\x06\x05ERROX", b"", b""),
        (
            Role::Req,
            Role::Rep,
            b"\x00\x06\x05ERROR",
            b"\x05ERROR|/",
            b"",
        ),
    ];
    for (role, peer, tail, messages, owed) in tails {
        let octets = stream(&rt, peer, tail)?;
        let read = reads(&rt, role, octets.bytes(), messages, owed, true)?;
        assert!(rt; read, "{tail:?} to {role:?}");
    }
    Ok(())
}

#[test]
fn libzmq_is_understood(rt: HostRuntime) -> Result<(), Fail> {
    assert!(rt; reads(&rt, Role::Dealer, ROUTER, b"", b"", true)?);
    assert!(rt; reads(&rt, Role::Req, ROUTER, b"", b"", true)?);
    assert!(rt; reads(&rt, Role::Sub, PUB, b"", b"|", true)?);
    Ok(())
}

/// The stream of a peer of version 3.0, and then the tail.
fn old_stream(rt: &HostRuntime, peer: Role, tail: &[u8]) -> Result<Bytes, NoMemory> {
    let mut octets = Bytes::of(rt.alloc(), OLD)?;
    put_ready(rt.alloc(), peer, &mut octets)?;
    octets.add(tail)?;
    Ok(octets)
}

#[test]
fn a_peer_of_version_3_0_is_owed_nothing(rt: HostRuntime) -> Result<(), Fail> {
    let octets = old_stream(&rt, Role::Pub, b"\x04\x09\x04PING\0\x0Aab")?;
    assert!(rt; reads(&rt, Role::Sub, octets.bytes(), b"", b"", false)?);
    let octets = old_stream(&rt, Role::Sub, b"\x04\x0B\x09SUBSCRIBEx")?;
    assert!(rt; reads(&rt, Role::Pub, octets.bytes(), b"", b"", false)?);
    Ok(())
}

#[test]
fn a_greeting_is_refused_at_its_octet(rt: HostRuntime) -> Result<(), Fail> {
    let rows: [(usize, u8, WireFault); 7] = [
        (0, 0xFE, WireFault::Signature { at: 0 }),
        (9, 0x7E, WireFault::Signature { at: 9 }),
        (10, 2, WireFault::Version { at: 10 }),
        (12, b'P', WireFault::Mechanism { at: 12 }),
        (15, b'K', WireFault::Mechanism { at: 15 }),
        (16, 1, WireFault::Mechanism { at: 16 }),
        (31, 1, WireFault::Mechanism { at: 31 }),
    ];
    for (place, octet, fault) in rows {
        let mut octets = Bytes::of(rt.alloc(), &greeting())?;
        if place < octets.len() {
            octets.put(place, octet);
        }
        let refused = refuses(&rt, Role::Dealer, octets.bytes(), fault, b"")?;
        assert!(rt; refused, "{octet} at {place}");
    }
    Ok(())
}

#[test]
fn a_first_command_is_refused_at_its_octet(rt: HostRuntime) -> Result<(), Fail> {
    let rows: [(&[u8], WireFault); 11] = [
        (b"\x08\0", WireFault::Flags { at: 64 }),
        (b"\x00\0", WireFault::Command { at: 64 }),
        (b"\x04\0", WireFault::Command { at: 65 }),
        (b"\x04\x06\x05HELLO", WireFault::Command { at: 71 }),
        (b"\x04\x07\x05READY\x0B", WireFault::Command { at: 72 }),
        (b"\x04\x08\x05ERRORxy", WireFault::PeerError { at: 73 }),
        (b"\x04\x06\x05READY", WireFault::WrongPeer { at: 71 }),
        (
            b"\x06\0\0\0\0\x04\0\0\x01",
            WireFault::TooLong {
                at: 72,
                size: 67_108_865,
            },
        ),
        (
            b"\x04\x1C\x05READY\x0BSocket-Type\0\0\0\x06DEALER",
            WireFault::WrongPeer { at: 93 },
        ),
        // The first one counts.
        (
            b"\x04\x2F\x05READY\x0BSocket-Type\0\0\0\x03SUB\x0BSocket-Type\0\0\0\x06ROUTER",
            WireFault::WrongPeer { at: 112 },
        ),
        // A value that is longer than what is left.
        (
            b"\x04\x1C\x05READY\x0BSocket-Type\0\0\0\x07ROUTER",
            WireFault::Command { at: 93 },
        ),
    ];
    for (tail, fault) in rows {
        let mut octets = Bytes::of(rt.alloc(), &greeting())?;
        octets.add(tail)?;
        let refused = refuses(&rt, Role::Dealer, octets.bytes(), fault, b"")?;
        assert!(rt; refused, "{fault:?}: {tail:?}");
    }
    Ok(())
}

#[test]
fn the_case_of_a_property_name_is_free(rt: HostRuntime) -> Result<(), Fail> {
    let mut octets = Bytes::of(rt.alloc(), &greeting())?;
    octets.add(b"\x04\x1C\x05READY\x0BsOCKET-tYPE\0\0\0\x06ROUTER\x00\x01A")?;
    assert!(rt; reads(&rt, Role::Dealer, octets.bytes(), b"A|/", b"", true)?);
    Ok(())
}

/// A stream with 63 frames of one message, and the flags of one that is not its last either.
fn stream_of_frames(rt: &HostRuntime) -> Result<Bytes, NoMemory> {
    let mut many = stream(rt, Role::Router, b"")?;
    for _ in 0..63u8 {
        many.add(b"\x01\0")?;
    }
    many.push(1)?;
    Ok(many)
}

#[test]
fn a_unit_is_refused_at_its_octet(rt: HostRuntime) -> Result<(), Fail> {
    let rows: [(&[u8], WireFault, &[u8]); 8] = [
        (b"\x08\0", WireFault::Flags { at: 94 }, b""),
        (b"\x00\x01A\x05", WireFault::Flags { at: 97 }, b"A|/"),
        (
            b"\x02\0\0\0\0\x04\0\0\x01",
            WireFault::TooLong {
                at: 102,
                size: 67_108_865,
            },
            b"",
        ),
        // The sizes of a message's frames count together.
        (
            b"\x01\x05abcde\x02\0\0\0\0\x03\xFF\xFF\xFC",
            WireFault::TooLong {
                at: 109,
                size: 67_108_860,
            },
            b"",
        ),
        (b"\x04\x06\x05ERROR", WireFault::PeerError { at: 101 }, b""),
        // It shows before the rest of it has come.
        (
            b"\x00\x01A\x04\xFF\x05ERROR",
            WireFault::PeerError { at: 104 },
            b"A|/",
        ),
        (
            b"\x06\0\0\0\0\0\0\0\x06\x05ERROR",
            WireFault::PeerError { at: 108 },
            b"",
        ),
        (
            b"\x06\x80\0\0\0\0\0\0\0",
            WireFault::TooLong {
                at: 102,
                size: 0x8000_0000_0000_0000,
            },
            b"",
        ),
    ];
    for (tail, fault, before) in rows {
        let octets = stream(&rt, Role::Router, tail)?;
        let refused = refuses(&rt, Role::Dealer, octets.bytes(), fault, before)?;
        assert!(rt; refused, "{fault:?}: {tail:?}");
    }
    let many = stream_of_frames(&rt)?;
    let fault = WireFault::TooMany { at: 220 };
    assert!(rt; refuses(&rt, Role::Dealer, many.bytes(), fault, b"")?);
    Ok(())
}

/// This piece is answered by the fault.
fn expect_answer(
    rt: &impl Abort,
    decoder: &mut Decoder,
    piece: &[u8],
    out: &mut Messages,
    fault: WireFault,
) {
    assert_eq!(rt; decoder.feed(piece, out), Err(fault));
}

/// A message and then a fault, which what comes after it brings again, and no more messages.
fn expect_flags(rt: &impl Abort, alloc: Global, decoder: &mut Decoder, octets: &[u8]) {
    let mut out = Messages::new(alloc);
    let fault = WireFault::Flags { at: 97 };
    expect_answer(rt, decoder, octets, &mut out, fault);
    expect_answer(rt, decoder, b"\x00\x01B", &mut out, fault);
    assert_eq!(rt; out.len(), 1);
    assert!(rt; decoder.shaken());
}

/// A broken greeting tells the version as soon as it has come.
fn expect_signature(rt: &impl Abort, alloc: Global, decoder: &mut Decoder) {
    let mut out = Messages::new(alloc);
    let fault = WireFault::Signature { at: 0 };
    expect_answer(rt, decoder, &[0; 11], &mut out, fault);
    assert_eq!(rt; decoder.newer(), None);
    expect_answer(rt, decoder, &[0], &mut out, fault);
    assert_eq!(rt; decoder.newer(), Some(false));
    assert!(rt; !decoder.shaken());
}

#[test]
fn a_fault_is_given_again(rt: HostRuntime) -> Result<(), Fail> {
    let octets = stream(&rt, Role::Router, b"\x00\x01A\x08")?;
    let mut decoder = Decoder::new(rt.alloc(), Role::Dealer);
    expect_flags(&rt, rt.alloc(), &mut decoder, octets.bytes());
    drop(decoder);
    let mut decoder = Decoder::new(rt.alloc(), Role::Dealer);
    expect_signature(&rt, rt.alloc(), &mut decoder);
    drop(decoder);
    let fault = WireFault::Flags { at: 97 };
    assert_eq!(rt; fault.number(), 4);
    assert_eq!(rt; fault.place(), 97);
    Ok(())
}

fn feed_each(decoder: &mut Decoder, octets: &[u8], out: &mut Messages) -> Result<(), WireFault> {
    for octet in octets {
        decoder.feed(&[*octet], out)?;
    }
    Ok(())
}

/// How many messages a decoder gives that is fed these octets one by one.
fn count_messages(alloc: Global, octets: &[u8]) -> Result<usize, WireFault> {
    let mut out = Messages::new(alloc);
    let mut decoder = Decoder::new(alloc, Role::Dealer);
    let end = feed_each(&mut decoder, octets, &mut out);
    drop(decoder);
    let count = out.len();
    drop(out);
    end?;
    Ok(count)
}

#[test]
fn a_mebibyte_in_pieces_of_one_octet_is_one_message(rt: HostRuntime) -> Result<(), Fail> {
    let mut octets = stream(&rt, Role::Router, b"\x02\0\0\0\0\0\x10\0\0")?;
    for _ in 0..1_048_576u32 {
        octets.push(7)?;
    }
    let count = count_messages(rt.alloc(), octets.bytes())?;
    assert_eq!(rt; count, 1);
    Ok(())
}
