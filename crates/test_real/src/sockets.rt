//! Connections, with the far end in the same program.
ghost use Rattle.std.specs.Prelude.{◌<◌};

use crate::worlds::{Real, open_descriptors, real_world};
use mio::net::{TcpListener, TcpStream};
use std::io::{ErrorKind, Read, Write};
use std::net::{Ipv4Addr, SocketAddr};
use std::process::Abort;
use std::test::Fail;
use world::{Chan, Conn, Connected, Did, Got, Put, Reports, Wire};

/// The connection of these tests, and its place.
const SHELL: Conn = Conn {
    job: 2,
    chan: Chan::Shell,
};

const PLACE: usize = 8;

/// How often a test waits 10 ms for what has to come.
const TURNS: u32 = 1000;

/// Ten megabytes.
const MUCH: usize = 10 << 20;

/// The channels of a job, by their places.
const CHANNELS: [Chan; 4] = [Chan::Shell, Chan::Control, Chan::Iopub, Chan::Heart];

/// The far end of the connection, which was taken up.
fn taken_up(rt: &HostRuntime, w: &mut Real) -> Result<TcpStream, Fail> {
    let listener = TcpListener::bind(rt, SocketAddr::from((Ipv4Addr::LOCALHOST, 0)))?;
    let port = listener.local_addr()?.port();
    if w.connect(SHELL, port) != Connected::Begun {
        return Err(Fail::new("not begun"));
    }
    accepted(w, &listener)
}

/// The far end of a connection that was begun to this listener.
fn accepted(w: &mut Real, listener: &TcpListener) -> Result<TcpStream, Fail> {
    let mut reports = Reports { ready: [false; 64] };
    for _ in 0..TURNS {
        match listener.accept() {
            Ok((stream, _)) => return Ok(stream),
            Err(e) if e.kind() == ErrorKind::WouldBlock => {}
            Err(e) => return Err(Fail::from(e)),
        }
        w.wait(10, &mut reports);
    }
    Err(Fail::new("not taken up"))
}

/// What a read of up to 64 bytes answers once it isn't dry.
fn read_on(w: &mut Real) -> Got {
    let mut reports = Reports { ready: [false; 64] };
    let mut buf = [0u8; 64];
    for _ in 0..TURNS {
        let got = w.read(SHELL, &mut buf);
        if got != Got::Dry {
            return got;
        }
        w.wait(10, &mut reports);
    }
    Got::Dry
}

/// What the first write after the far end is gone answers that takes nothing.
fn write_on(w: &mut Real) -> Put {
    let mut reports = Reports { ready: [false; 64] };
    for _ in 0..TURNS {
        match Wire::write(w, SHELL, b"more") {
            Put::Took(_) | Put::Stuck => {}
            put => return put,
        }
        w.wait(10, &mut reports);
    }
    Put::Stuck
}

#[test]
fn a_port_that_nobody_listens_on_is_refused(rt: HostRuntime) -> Result<(), Fail> {
    let mut w = real_world(&rt)?;
    let end = connect_in_vain(&rt, &rt, &mut w);
    drop(w);
    end
}

fn connect_in_vain(rt: &HostRuntime, stop: &impl Abort, w: &mut Real) -> Result<(), Fail> {
    let [port, ..] = w.free_ports(2).ok_or("no ports")?;
    for round in 0..3u8 {
        let connected = w.connect(SHELL, port);
        assert_ne!(stop; connected, Connected::Failed, "round {round}");
        if connected == Connected::Begun {
            assert_eq!(stop; read_on(w), Got::Refused, "round {round}");
        }
    }
    if w.connect(SHELL, port) == Connected::Begun {
        assert_eq!(stop; write_on(w), Put::Refused);
    }
    assert_eq!(stop; w.net_faults(), 0);
    let mut buf = [0u8; 4];
    assert_eq!(stop; w.read(SHELL, &mut buf), Got::Failed, "it is closed");
    assert_eq!(stop; Wire::write(w, SHELL, b"x"), Put::Failed, "it is closed");
    assert_eq!(stop; w.net_faults(), 2);
    Ok(())
}

#[test]
fn a_far_end_that_closes_in_the_middle_has_ended_it(rt: HostRuntime) -> Result<(), Fail> {
    let mut w = real_world(&rt)?;
    let end = read_to_the_end(&rt, &rt, &mut w);
    drop(w);
    end
}

fn read_to_the_end(rt: &HostRuntime, stop: &impl Abort, w: &mut Real) -> Result<(), Fail> {
    let mut peer = taken_up(rt, w)?;
    peer.write_all(b"hal")?;
    drop(peer);
    assert_eq!(stop; read_on(w), Got::Piece(3));
    assert_eq!(stop; read_on(w), Got::Ended);
    let mut reports = Reports { ready: [true; 64] };
    assert_eq!(stop; w.wait(0, &mut reports), Did::Done);
    assert!(stop;
        reports.ready == [false; 64],
        "what has ended is not reported"
    );
    assert_eq!(stop; write_on(w), Put::Ended);
    assert_eq!(stop; w.net_faults(), 0);
    Ok(())
}

#[test]
fn a_reset_has_ended_it(rt: HostRuntime) -> Result<(), Fail> {
    let mut w = real_world(&rt)?;
    let peer = taken_up(&rt, &mut w)?;
    assert_eq!(rt; Wire::write(&mut w, SHELL, b"unread"), Put::Took(6));
    drop(peer);
    assert_eq!(rt; read_on(&mut w), Got::Ended);
    assert_eq!(rt; w.net_faults(), 0);
    Ok(())
}

/// The byte at this place of what is sent.
fn byte_at(at: usize) -> u8 {
    (at % 251) as u8
}

/// So many bytes of what is sent, from this place on.
fn sent(at: usize) -> [u8; 4096] {
    let mut bytes = [0u8; 4096];
    for (i, byte) in bytes.iter_mut().enumerate() {
        *byte = byte_at(at.wrapping_add(i));
    }
    bytes
}

/// Whether these are the bytes from this place on.
fn are_sent(at: usize, bytes: &[u8]) -> bool {
    let expected = sent(at);
    bytes.len() <= expected.len() && bytes == &expected[..bytes.len()]
}

/// Lets the far end take what has come, and answers how many bytes there are in all.
fn peer_takes(mut peer: &TcpStream, had: usize) -> Result<usize, Fail> {
    let mut buf = [0u8; 4096];
    match peer.read(&mut buf) {
        Ok(n) if are_sent(had, &buf[..n]) => Ok(had.saturating_add(n)),
        Ok(_) => Err(Fail::new("other bytes came")),
        Err(e) if e.kind() == ErrorKind::WouldBlock => Ok(had),
        Err(e) => Err(Fail::from(e)),
    }
}

/// Lets the far end send what it can of ten megabytes, and answers how many bytes there are in all.
fn peer_sends(mut peer: &TcpStream, had: usize) -> Result<usize, Fail> {
    let bytes = sent(had);
    let most = bytes.len().min(MUCH.saturating_sub(had));
    if most == 0 {
        return Ok(had);
    }
    match peer.write(&bytes[..most]) {
        Ok(n) => Ok(had.saturating_add(n)),
        Err(e) if e.kind() == ErrorKind::WouldBlock => Ok(had),
        Err(e) => Err(Fail::from(e)),
    }
}

/// Puts what it can of ten megabytes, and answers how many bytes there are in all.
fn puts(w: &mut Real, had: usize) -> Result<usize, Fail> {
    let bytes = sent(had);
    let most = bytes.len().min(MUCH.saturating_sub(had));
    if most == 0 {
        return Ok(had);
    }
    match Wire::write(w, SHELL, &bytes[..most]) {
        Put::Took(n) => Ok(had.saturating_add(n)),
        Put::Stuck => Ok(had),
        _ => Err(Fail::new("a write failed")),
    }
}

/// Gets what has come, and answers how many bytes there are in all.
fn gets(w: &mut Real, had: usize) -> Result<usize, Fail> {
    let mut buf = [0u8; 4096];
    match w.read(SHELL, &mut buf) {
        Got::Piece(n) if n <= buf.len() && are_sent(had, &buf[..n]) => Ok(had.saturating_add(n)),
        Got::Dry => Ok(had),
        _ => Err(Fail::new("a read failed, or other bytes came")),
    }
}

#[test]
fn ten_megabytes_pass_each_way(rt: HostRuntime) -> Result<(), Fail> {
    let mut w = real_world(&rt)?;
    let peer = taken_up(&rt, &mut w)?;
    let mut reports = Reports { ready: [false; 64] };
    let (mut put, mut got, mut peer_put, mut peer_got) = (0, 0, 0, 0);
    for _ in 0..200_000u32 {
        let before = (put, got, peer_put, peer_got);
        put = puts(&mut w, put)?;
        peer_put = peer_sends(&peer, peer_put)?;
        got = gets(&mut w, got)?;
        peer_got = peer_takes(&peer, peer_got)?;
        if got == MUCH && peer_got == MUCH {
            return Ok(());
        }
        if before == (put, got, peer_put, peer_got) {
            w.wait(5, &mut reports);
        }
    }
    Err(Fail::new(format_args!("{put} {got} {peer_put} {peer_got}")))
}

/// The first byte that comes on a connection, once it is reported.
fn first_byte(w: &mut Real, conn: Conn) -> Option<u8>
    requires { conn.job < 16 }
{
    let mut reports = Reports { ready: [false; 64] };
    let mut buf = [0u8; 8];
    for _ in 0..TURNS {
        match w.read(conn, &mut buf) {
            Got::Piece(_) => return Some(buf[0]),
            Got::Dry => {}
            _ => return None,
        }
        w.wait(10, &mut reports);
    }
    None
}

#[test]
fn all_64_connections_stand_beside_each_other(rt: HostRuntime) -> Result<(), Fail> {
    let mut w = real_world(&rt)?;
    let end = connect_all(&rt, &rt, &mut w);
    drop(w);
    end
}

fn connect_all(rt: &HostRuntime, stop: &impl Abort, w: &mut Real) -> Result<(), Fail> {
    let listener = TcpListener::bind(rt, SocketAddr::from((Ipv4Addr::LOCALHOST, 0)))?;
    let port = listener.local_addr()?.port();
    let mut peers = Vec::new(rt.alloc());
    let mut number = 0u8;
    for job in 0..16u8 {
        for chan in CHANNELS {
            assert_eq!(stop; w.connect(Conn { job, chan }, port), Connected::Begun);
            let mut peer = accepted(w, &listener)?;
            peer.write_all(&[number])?;
            peers.push(peer)?;
            number = number.wrapping_add(1);
        }
    }
    number = 0;
    for job in 0..16u8 {
        for chan in CHANNELS {
            assert_eq!(stop; first_byte(w, Conn { job, chan }), Some(number));
            number = number.wrapping_add(1);
        }
    }
    assert_eq!(stop; number, 64);
    assert_eq!(stop; w.net_faults(), 0);
    Ok(())
}

#[test]
fn a_stuck_connection_is_reported_once_the_far_end_reads(rt: HostRuntime) -> Result<(), Fail> {
    let mut w = real_world(&rt)?;
    let end = write_until_stuck(&rt, &rt, &mut w);
    drop(w);
    end
}

fn write_until_stuck(rt: &HostRuntime, stop: &impl Abort, w: &mut Real) -> Result<(), Fail> {
    let peer = taken_up(rt, w)?;
    let bytes = [7u8; 4096];
    let mut put = Put::Took(1);
    for _ in 0..100_000u32 {
        put = Wire::write(w, SHELL, &bytes);
        if !matches!(&put, Put::Took(_)) {
            break;
        }
    }
    assert_eq!(stop; put, Put::Stuck);
    let mut reports = Reports { ready: [false; 64] };
    w.wait(0, &mut reports);
    assert_eq!(stop; w.wait(0, &mut reports), Did::Done);
    assert!(stop; !reports.ready[PLACE], "it was told already");
    let mut buf = [0u8; 4096];
    for _ in 0..100_000u32 {
        if (&peer).read(&mut buf).is_err() {
            break;
        }
    }
    assert_eq!(stop; w.wait(5000, &mut reports), Did::Done);
    assert!(stop; reports.ready[PLACE]);
    w.close(SHELL);
    assert_eq!(stop; w.wait(0, &mut reports), Did::Done);
    assert!(stop;
        reports.ready == [false; 64],
        "what is closed is not reported"
    );
    Ok(())
}

#[test]
fn no_port_is_given_twice(rt: HostRuntime) -> Result<(), Fail> {
    let mut w = real_world(&rt)?;
    let end = take_all_ports(&rt, &rt, &mut w);
    drop(w);
    end
}

fn take_all_ports(rt: &HostRuntime, stop: &impl Abort, w: &mut Real) -> Result<(), Fail> {
    let mut given = Vec::new(rt.alloc());
    for job in 0..16u8 {
        for port in w.free_ports(job).ok_or("no ports")? {
            assert!(stop; 0 < port && !given.contains(&port), "job {job} has {port}");
            given.push(port)?;
        }
    }
    assert_eq!(stop; w.net_faults(), 0);
    Ok(())
}

#[test]
fn no_descriptor_is_left_over(rt: HostRuntime) -> Result<(), Fail> {
    let before = open_descriptors(&rt)?;
    {
        let mut w = real_world(&rt)?;
        for job in 0..4u8 {
            assert!(rt; w.free_ports(job).is_some());
        }
        for _ in 0..8u8 {
            let _peer = taken_up(&rt, &mut w)?;
        }
        let ours = open_descriptors(&rt)?;
        assert_eq!(rt;
            ours,
            before.saturating_add(3),
            "the poll, the lock of the ports and one connection"
        );
        w.close(SHELL);
        assert_eq!(rt;
            open_descriptors(&rt)?,
            before.saturating_add(2),
            "the poll and the lock of the ports"
        );
    }
    assert_eq!(rt; open_descriptors(&rt)?, before);
    Ok(())
}
