//! Connections to the kernels.
ghost use Rattle.std.specs.Prelude.{◌≡◌, ◌+◌, ◌*◌};
ghost use Rattle.world.specs.Places.{place_of};

use crate::RealWorld;
use crate::answers::{connected_of, count, did_of, value_of};
use crate::complaint::note_unnamed;
use crate::link::Link;
use mio::net::TcpStream;
use mio::{Events, Interest, Poll, Token};
use std::fs::File;
use std::io;
use std::io::ErrorKind;
use std::net::{Ipv4Addr, Net, SocketAddr};
use std::process::Processes;
use std::rt::{Clock, Files};
use std::time::Duration;
use world::{Chan, Conn, Connected, Did, Got, Put, Reports, Wire};

impl<R: Files<File = File> + Net + Processes + Clock + Print + Drop> Wire for RealWorld<R> {
    fn net_faults(&self) -> u64 {
        self.net_faults
    }

    fn waits(&self) -> u64 {
        self.waits
    }

    fn free_ports(&mut self, job: u8) -> Option<[u16; 5]> {
        let drawn = self.ports.draw(&self.rt);
        note_unnamed(&mut self.complaint, &drawn);
        if let Some(slot) = self.job_ports.get_mut(job as usize) {
            *slot = drawn.ok();
        }
        value_of(drawn, &mut self.net_faults)
    }

    fn connect(&mut self, conn: Conn, port: u16) -> Connected {
        let at = place(conn);
        shut(&mut self.links, at);
        let begun = begin(&self.rt, &mut self.poll, &mut self.links, at, port);
        let connected = connected_of(begun, &mut self.net_faults);
        if connected == Connected::Failed {
            note_unnamed(&mut self.complaint, &begun);
        }
        connected
    }

    fn read(&mut self, conn: Conn, buf: &mut [u8]) -> Got {
        let at = place(conn);
        let got = match self.links.get_mut(at) {
            Some(Some(link)) => link.read(buf),
            _ => Got::Failed,
        };
        match got {
            Got::Failed => count(&mut self.net_faults),
            Got::Refused => shut(&mut self.links, at),
            Got::Ended => self.parted = true,
            _ => {}
        }
        got
    }

    fn write(&mut self, conn: Conn, piece: &[u8]) -> Put {
        let at = place(conn);
        let put = match self.links.get_mut(at) {
            Some(Some(link)) => link.write(piece),
            _ => Put::Failed,
        };
        match put {
            Put::Failed => count(&mut self.net_faults),
            Put::Refused => shut(&mut self.links, at),
            _ => {}
        }
        put
    }

    fn close(&mut self, conn: Conn) {
        shut(&mut self.links, place(conn));
    }

    fn wait(&mut self, ms: u32, out: &mut Reports) -> Did {
        count(&mut self.waits);
        out.ready = [false; 64];
        let time = Duration::from_millis(ms as u64);
        let Some(poll) = &mut self.poll else {
            self.rt.sleep(time);
            return Did::Done;
        };
        let polled = poll.poll(&mut self.events, Some(time));
        let did = did_of(polled, &mut self.net_faults);
        if did == Did::Done {
            report(&self.events, self.links.as_slice(), out);
        }
        did
    }
}

// The place of a connection.
fn place(conn: Conn) -> usize
    ensures { result ≡ place_of conn }
{
    let chan = match conn.chan {
        Chan::Shell => 0,
        Chan::Control => 1,
        Chan::Iopub => 2,
        Chan::Heart => 3,
    };
    4 * conn.job as usize + chan
}

// Begins a connection at a place.
fn begin<R: Net>(
    net: &R,
    poll: &mut Option<Poll>,
    links: &mut Vec<Option<Link>>,
    at: usize,
    port: u16,
) -> io::Result<()> {
    if poll.is_none() {
        *poll = Some(Poll::new(net)?);
    }
    let mut stream = begun_stream(net, port)?;
    if let Some(poll) = poll {
        let both = Interest::READABLE | Interest::WRITABLE;
        poll.registry().register(&mut stream, Token(at), both)?;
    }
    if let Some(slot) = links.get_mut(at) {
        *slot = Some(Link::new(stream));
    }
    Ok(())
}

// Where nobody listens, the system may connect a socket to itself.
fn begun_stream<R: Net>(net: &R, port: u16) -> io::Result<TcpStream> {
    let stream = TcpStream::connect(net, SocketAddr::from((Ipv4Addr::LOCALHOST, port)))?;
    if stream.local_addr()?.port() == port {
        return Err(io::Error::from(ErrorKind::ConnectionRefused));
    }
    stream.set_nodelay(true)?;
    Ok(stream)
}

// Closes the connection at a place.
fn shut(links: &mut Vec<Option<Link>>, at: usize) {
    if let Some(slot) = links.get_mut(at) {
        *slot = None;
    }
}

// Sets the places of which the system has told, as far as their connections are up.
fn report(events: &Events, links: &[Option<Link>], out: &mut Reports) {
    for event in events {
        let at = event.token().0;
        if at < 64 && is_up(links, at) {
            out.ready[at] = true;
        }
    }
}

// Whether the connection at a place may be reported.
fn is_up(links: &[Option<Link>], at: usize) -> bool {
    match links.get(at) {
        Some(Some(link)) => link.is_up(),
        _ => false,
    }
}
