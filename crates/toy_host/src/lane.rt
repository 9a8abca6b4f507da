//! One channel over its socket.
ghost use Rattle.std.specs.Prelude.{◌<◌, ◌≤◌, ◌^◌};

use crate::HostFault;
use crate::held::Held;
use mio::net::{TcpListener, TcpStream};
use mio::{Interest, Poll, Token};
use std::alloc::Global;
use std::io;
use std::io::{ErrorKind, Read, Write};
use std::net::{Ipv4Addr, Net, SocketAddr};
use world::{Chan, Give, KernelSide};

/// One channel: its listening socket, its connection where there is one, and what waits to be written.
#[derive(Drop)]
pub(crate) struct Lane {
    chan: Chan,
    listener: TcpListener,
    stream: Option<TcpStream>,
    held: Held,
}

/// How a call on a connection went.
enum Went {
    /// So many octets went.
    Octets(usize),
    /// None may go now.
    Dry,
    /// The other side has ended it.
    Over,
}

impl Lane {
    /// Listens on a port of this machine.
    pub(crate) fn open<R: Net>(
        rt: &R,
        alloc: Global,
        poll: &Poll,
        chan: Chan,
        port: u16,
    ) -> Result<Lane, HostFault> {
        let held = Held::new(alloc)?;
        let Ok(listener) = listener(rt, poll, chan, port) else {
            return Err(HostFault::Socket);
        };
        Ok(Lane {
            chan,
            listener,
            stream: None,
            held,
        })
    }

    /// Takes up a connection where one waits, and hands on what came and what is due; says whether
    /// anything went.
    pub(crate) fn turn<K: KernelSide>(
        &mut self,
        alloc: Global,
        poll: &Poll,
        kernel: &mut K,
        now: u64,
        buf: &mut [u8],
    ) -> Result<bool, HostFault>
        requires bound { now < 2 ^ 47 }
        requires later { K.latest kernel.old ≤ now }
        ensures { K.latest kernel.new ≤ now }
    {
        self.meet(poll, kernel, now)?;
        let came = self.hear(alloc, kernel, now, buf)?;
        let went = self.say(kernel, now)?;
        Ok(came || went)
    }

    /// Whether nothing waits to be written.
    pub(crate) fn is_idle(&self) -> bool {
        self.held.is_empty()
    }

    /// Takes up a connection where one waits and the channel has none.
    fn meet<K: KernelSide>(
        &mut self,
        poll: &Poll,
        kernel: &mut K,
        now: u64,
    ) -> Result<(), HostFault>
        requires bound { now < 2 ^ 47 }
        requires later { K.latest kernel.old ≤ now }
        ensures { K.latest kernel.new ≤ now }
    {
        if self.stream.is_some() {
            return Ok(());
        }
        let Some(stream) = waiting(&self.listener, poll, self.chan)? else {
            return Ok(());
        };
        if kernel.accept(self.chan, now) {
            self.stream = Some(stream);
        }
        Ok(())
    }

    /// Hands what came to the kernel.
    fn hear<K: KernelSide>(
        &mut self,
        alloc: Global,
        kernel: &mut K,
        now: u64,
        buf: &mut [u8],
    ) -> Result<bool, HostFault>
        requires bound { now < 2 ^ 47 }
        requires later { K.latest kernel.old ≤ now }
        ensures { K.latest kernel.new ≤ now }
    {
        let Some(stream) = &mut self.stream else {
            return Ok(false);
        };
        match read(stream, buf)? {
            Went::Octets(count) => {
                let count = count.min(buf.len());
                kernel.take(alloc, self.chan, now, &buf[..count])?;
                Ok(true)
            }
            Went::Dry => Ok(false),
            Went::Over => {
                self.close();
                Ok(false)
            }
        }
    }

    /// Hands what is due to the other side.
    fn say<K: KernelSide>(&mut self, kernel: &mut K, now: u64) -> Result<bool, HostFault>
        requires bound { now < 2 ^ 47 }
        requires later { K.latest kernel.old ≤ now }
        ensures { K.latest kernel.new ≤ now }
    {
        let Some(stream) = &mut self.stream else {
            return Ok(false);
        };
        match self.held.fill(kernel, self.chan, now) {
            Give::Bytes(_) => {}
            Give::Nothing => return Ok(false),
            Give::Ended => {
                self.close();
                return Ok(false);
            }
        }
        match write(stream, self.held.octets())? {
            Went::Octets(count) => {
                self.held.take(count);
                Ok(true)
            }
            Went::Dry => Ok(false),
            Went::Over => {
                self.close();
                Ok(false)
            }
        }
    }

    fn close(&mut self) {
        self.stream = None;
        self.held.clear();
    }
}

/// What the poll calls a listening socket.
fn listener_token(chan: Chan) -> Token {
    match chan {
        Chan::Shell => Token(0),
        Chan::Control => Token(1),
        Chan::Iopub => Token(2),
        Chan::Heart => Token(3),
    }
}

/// What the poll calls a connection.
fn stream_token(chan: Chan) -> Token {
    match chan {
        Chan::Shell => Token(4),
        Chan::Control => Token(5),
        Chan::Iopub => Token(6),
        Chan::Heart => Token(7),
    }
}

fn listener<R: Net>(rt: &R, poll: &Poll, chan: Chan, port: u16) -> io::Result<TcpListener> {
    let at = SocketAddr::from((Ipv4Addr::LOCALHOST, port));
    let mut listener = TcpListener::bind(rt, at)?;
    let token = listener_token(chan);
    poll.registry()
        .register(&mut listener, token, Interest::READABLE)?;
    Ok(listener)
}

/// The connection that waits, where one does.
fn waiting(
    listener: &TcpListener,
    poll: &Poll,
    chan: Chan,
) -> Result<Option<TcpStream>, HostFault> {
    match listener.accept() {
        Ok((stream, _)) => match watched(stream, poll, chan) {
            Ok(stream) => Ok(Some(stream)),
            Err(_) => Err(HostFault::Socket),
        },
        Err(e) if e.kind() == ErrorKind::WouldBlock => Ok(None),
        Err(e) if is_over(&e) => Ok(None),
        Err(_) => Err(HostFault::Socket),
    }
}

fn watched(stream: TcpStream, poll: &Poll, chan: Chan) -> io::Result<TcpStream> {
    let mut stream = stream;
    let both = Interest::READABLE | Interest::WRITABLE;
    poll.registry()
        .register(&mut stream, stream_token(chan), both)?;
    stream.set_nodelay(true)?;
    Ok(stream)
}

fn read(stream: &mut TcpStream, buf: &mut [u8]) -> Result<Went, HostFault> {
    match stream.read(buf) {
        Ok(0) => Ok(Went::Over),
        Ok(count) => Ok(Went::Octets(count)),
        Err(e) if e.kind() == ErrorKind::WouldBlock => Ok(Went::Dry),
        Err(e) if is_over(&e) => Ok(Went::Over),
        Err(_) => Err(HostFault::Socket),
    }
}

fn write(stream: &mut TcpStream, octets: &[u8]) -> Result<Went, HostFault> {
    match stream.write(octets) {
        Ok(count) => Ok(Went::Octets(count)),
        Err(e) if e.kind() == ErrorKind::WouldBlock => Ok(Went::Dry),
        Err(e) if is_over(&e) => Ok(Went::Over),
        Err(_) => Err(HostFault::Socket),
    }
}

/// Whether the call failed only since the other side is gone.
fn is_over(e: &io::Error) -> bool {
    matches!(
        e.kind(),
        ErrorKind::ConnectionReset
            | ErrorKind::ConnectionAborted
            | ErrorKind::BrokenPipe
            | ErrorKind::NotConnected
    )
}
