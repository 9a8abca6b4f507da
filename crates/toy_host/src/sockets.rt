//! The four lanes and the poll over them.
ghost use Rattle.std.specs.Prelude.{◌<◌, ◌≤◌, ◌^◌};

use crate::HostFault;
use crate::lane::Lane;
use mio::{Events, Poll};
use std::alloc::Global;
use std::net::Net;
use std::time::Duration;
use world::{Chan, KernelSide};

/// The ports of this machine on which a kernel listens.
#[derive(Clone, Copy, Debug, Drop, PartialEq, Eq)]
pub struct Ports {
    pub shell: u16,
    pub control: u16,
    pub iopub: u16,
    pub heart: u16,
}

/// The listening sockets with their connections.
#[derive(Drop)]
pub(crate) struct Sockets {
    poll: Poll,
    events: Events,
    shell: Lane,
    control: Lane,
    iopub: Lane,
    heart: Lane,
}

impl Sockets {
    /// Listens on the ports.
    pub(crate) fn open<R: Net>(rt: &R, alloc: Global, ports: Ports) -> Result<Sockets, HostFault> {
        let Ok(poll) = Poll::new(rt) else {
            return Err(HostFault::Socket);
        };
        let shell = Lane::open(rt, alloc, &poll, Chan::Shell, ports.shell)?;
        let control = Lane::open(rt, alloc, &poll, Chan::Control, ports.control)?;
        let iopub = Lane::open(rt, alloc, &poll, Chan::Iopub, ports.iopub)?;
        let heart = Lane::open(rt, alloc, &poll, Chan::Heart, ports.heart)?;
        let events = Events::with_capacity(alloc, 16)?;
        Ok(Sockets {
            poll,
            events,
            shell,
            control,
            iopub,
            heart,
        })
    }

    /// Waits until something comes, at most so many milliseconds.
    pub(crate) fn rest(&mut self, ms: u64) -> Result<(), HostFault> {
        match self
            .poll
            .poll(&mut self.events, Some(Duration::from_millis(ms)))
        {
            Ok(()) => Ok(()),
            Err(_) => Err(HostFault::Socket),
        }
    }

    /// Hands on what came and what is due on each channel, and says whether anything went.
    pub(crate) fn turn<K: KernelSide>(
        &mut self,
        alloc: Global,
        kernel: &mut K,
        now: u64,
        buf: &mut [u8],
    ) -> Result<bool, HostFault>
        requires bound { now < 2 ^ 47 }
        requires later { K.latest kernel.old ≤ now }
        ensures { K.latest kernel.new ≤ now }
    {
        let shell = self.shell.turn(alloc, &self.poll, kernel, now, buf)?;
        let control = self.control.turn(alloc, &self.poll, kernel, now, buf)?;
        let iopub = self.iopub.turn(alloc, &self.poll, kernel, now, buf)?;
        let heart = self.heart.turn(alloc, &self.poll, kernel, now, buf)?;
        Ok(shell || control || iopub || heart)
    }

    /// Whether nothing waits to be written.
    pub(crate) fn is_idle(&self) -> bool {
        self.shell.is_idle()
            && self.control.is_idle()
            && self.iopub.is_idle()
            && self.heart.is_idle()
    }
}
