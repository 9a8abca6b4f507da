//! `PortBlock`, ports of this machine that one run alone draws from.
ghost use Rattle.std.specs.Prelude.{◌≡◌, ◌<◌, ◌≤◌, ◌+◌, ◌*◌, IfOk, IfSome};
ghost use Rattle.world_real.specs.Ports.{IsOfBlock};

use std::io;
use std::io::ErrorKind;
use std::net::{Ipv4Addr, Net, SocketAddr};

/// The first port of all blocks.
const LOWEST: u16 = 10_000;

/// How many ports a block has: the first one, five for each of 16 jobs, and some to pass over.
const SIZE: u16 = 96;

/// How many blocks there are. All lie below 32768: Linux gives out ports by itself from there on.
const COUNT: u16 = 237;

/// A block of ports. A listener on its first port is the lock of the block: the system lets no
/// other process listen there, and closes it where the process was killed.
#[derive(Drop)]
pub(crate) struct PortBlock<L> {
    lock: L,
    first: u16,
    // The next port that is drawn.
    next: u16,
    ghost inside: { first < next },
    ghost most: { next ≤ first + 96 },
    ghost low: { first + 96 ≤ 32768 },
}

impl<L> PortBlock<L> {
    /// The next port that was not drawn before, and `None` where all were.
    fn next_port(&mut self) -> Option<u16>
        ensures block { IfSome result (IsOfBlock self.old.first) }
        ensures same { self.new.first ≡ self.old.first }
    {
        if self.next < self.first + SIZE {
            let port = self.next;
            self.next += 1;
            return Some(port);
        }
        None
    }

    /// The next free port. It fails where none is left.
    pub(crate) fn free_port<R: Net>(&mut self, net: &R) -> io::Result<u16>
        ensures block { IfOk result (IsOfBlock self.old.first) }
        ensures same { self.new.first ≡ self.old.first }
    {
        for _ in 0..SIZE {
            let Some(port) = self.next_port() else {
                break;
            };
            match listener_at(net, port) {
                Ok(_) => return Ok(port),
                Err(e) if e.kind() == ErrorKind::AddrInUse => {}
                Err(e) => return Err(e),
            }
        }
        Err(io::Error::from(ErrorKind::AddrInUse))
    }
}

/// A block that no other run has, the first one from that number on, round and round.
pub(crate) fn lock_block<R: Net>(net: &R, from: u32) -> io::Result<PortBlock<R::Listener>> {
    let start = (from % COUNT as u32) as u16;
    for i in 0..COUNT {
        let first = LOWEST + (start + i) % COUNT * SIZE;
        match listener_at(net, first) {
            Ok(lock) => {
                return Ok(PortBlock {
                    lock,
                    first,
                    next: first + 1,
                });
            }
            Err(e) if e.kind() == ErrorKind::AddrInUse => {}
            Err(e) => return Err(e),
        }
    }
    Err(io::Error::from(ErrorKind::AddrInUse))
}

/// Whether a program listens on that port of this machine.
pub(crate) fn is_taken<R: Net>(net: &R, port: u16) -> bool {
    match listener_at(net, port) {
        Ok(_) => false,
        Err(e) => e.kind() == ErrorKind::AddrInUse,
    }
}

fn listener_at<R: Net>(net: &R, port: u16) -> io::Result<R::Listener> {
    net.bind(SocketAddr::from((Ipv4Addr::LOCALHOST, port)))
}
