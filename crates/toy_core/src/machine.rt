//! `Machine`, the kernel over its connections.
ghost use Rattle.std.specs.Prelude.{◌≡◌, ◌<◌, ◌≤◌, ◌^◌, ℕ, true, length, take, OnOk, IfOk};
ghost use Rattle.world.specs.Kernel.{Gives, is_something};
ghost use Rattle.toy_core.specs.Requests as requests;
ghost use Rattle.toy_core.specs.Standing as spec;
ghost use Rattle.toy_core.specs.Toy as toy;
ghost use Rattle.toy_core.specs.Dues.{Keeps, IsAsDue, IsSettled, StaysDue};

use crate::course;
use crate::kernel::Kernel;
use crate::lanes::Lanes;
use crate::note::Notes;
use crate::pouring::pour_left;
use crate::reply::{interrupt_reply, shutdown_reply};
use crate::request::{Asked, Request, request_in};
use crate::scribe::body_octets;
use jtext::{Json, NoMemory, Text, copy};
use std::alloc::Global;
use world::{Chan, Give};
use zmtp_peer::is_body;
use zmtp_wire::{Messages, Parts};

/// The kernel over its connections.
#[derive(Debug, Drop)]
pub(crate) struct Machine {
    pub(crate) kernel: Kernel,
    pub(crate) lanes: Lanes,
}

impl Machine {
    /// A kernel to which nothing has happened.
    pub(crate) fn new(alloc: Global) -> Result<Machine, NoMemory>
        ensures { IfOk result (λ m. toy.Is m spec.start) }
    {
        Ok(Machine {
            kernel: Kernel::new(alloc),
            lanes: Lanes::new(alloc)?,
        })
    }

    /// A connection to a channel is taken up, unless the kernel has ended by then.
    pub(crate) fn accept(&mut self, alloc: Global, chan: Chan, now: u64) -> bool
        requires { now < 2 ^ 47 }
        ensures answer { result ≡ toy.accepts_by now self.old.kernel.agenda }
        ensures stands { (s : spec.Standing) →
            toy.Is self.old s → toy.Is self.new (spec.accept_line chan now s) }
        ensures kernel { self.new.kernel ≡ self.old.kernel }
    {
        if self.kernel.agenda.end_by(now).is_some() {
            return false;
        }
        self.lanes.open(alloc, chan);
        true
    }

    /// Takes a piece that came on a channel.
    pub(crate) fn take(
        &mut self,
        alloc: Global,
        now: u64,
        key: &Text,
        chan: Chan,
        piece: &[u8],
    ) -> Result<(), NoMemory>
        requires { now < 2 ^ 47 }
        ensures stands { OnOk result ((s : spec.Standing) →
            toy.Is self.old s → toy.Is self.new (spec.took now key.now chan piece.now s)) }
        // Without memory too.
        ensures due { StaysDue now self.old self.new }
    {
        self.settle(alloc, now)?;
        self.take_settled(alloc, now, key, chan, piece)?;
        Ok(())
    }

    fn take_settled(
        &mut self,
        alloc: Global,
        now: u64,
        key: &Text,
        chan: Chan,
        piece: &[u8],
    ) -> Result<(), NoMemory>
        requires { now < 2 ^ 47 }
        ensures stands { OnOk result ((s : spec.Standing) →
            toy.Is self.old s → toy.Is self.new (spec.took_settled now key.now chan piece.now s)) }
        ensures keeps { Keeps self.old.lanes self.new.lanes }
        ensures ended { spec.has_ended self.old.kernel ≡ true → self.new ≡ self.old }
    {
        if self.kernel.has_ended() {
            return Ok(());
        }
        let bodies = self.lanes.hear(alloc, chan, piece)?;
        self.serve_all(alloc, now, key, chan, bodies)?;
        Ok(())
    }

    fn serve_all(
        &mut self,
        alloc: Global,
        now: u64,
        key: &Text,
        chan: Chan,
        bodies: Messages,
    ) -> Result<(), NoMemory>
        requires { now < 2 ^ 47 }
        ensures stands { OnOk result ((s : spec.Standing) →
            toy.Is self.old s → toy.Is self.new (spec.served_all now key.now chan bodies s)) }
        ensures keeps { Keeps self.old.lanes self.new.lanes }
    {
        for body in bodies.into_vec() {
            self.serve(alloc, now, key, chan, &body)?;
        }
        Ok(())
    }

    /// A body that came is served, with all that is due then.
    fn serve(
        &mut self,
        alloc: Global,
        now: u64,
        key: &Text,
        chan: Chan,
        body: &Parts,
    ) -> Result<(), NoMemory>
        requires { now < 2 ^ 47 }
        ensures stands { OnOk result ((s : spec.Standing) →
            toy.Is self.old s → toy.Is self.new (spec.serve_body now key.now chan body.now s)) }
        ensures keeps { Keeps self.old.lanes self.new.lanes }
    {
        if self.kernel.has_ended() {
            return Ok(());
        }
        self.serve_on(alloc, now, key, chan, body)?;
        self.settle(alloc, now)?;
        Ok(())
    }

    fn serve_on(
        &mut self,
        alloc: Global,
        now: u64,
        key: &Text,
        chan: Chan,
        body: &Parts,
    ) -> Result<(), NoMemory>
        ensures stands { OnOk result ((s : spec.Standing) →
            toy.Is self.old s → toy.Is self.new (spec.served_on now key.now chan body.now s)) }
        ensures keeps { Keeps self.old.lanes self.new.lanes }
    {
        match chan {
            Chan::Shell => self.serve_request(alloc, now, key, chan, body),
            Chan::Control => self.serve_request(alloc, now, key, chan, body),
            Chan::Iopub => Ok(()),
            Chan::Heart => self.echo(alloc, body),
        }
    }

    /// A body that came on the heartbeat goes back.
    fn echo(&mut self, alloc: Global, body: &Parts) -> Result<(), NoMemory>
        ensures stands { OnOk result ((s : spec.Standing) →
            toy.Is self.old s → toy.Is self.new (spec.with_echo body.now s)) }
        ensures keeps { Keeps self.old.lanes self.new.lanes }
    {
        if !may_be_sent(body) {
            return Ok(());
        }
        let octets = body_octets(alloc, Chan::Heart, body)?;
        self.lanes.send(alloc, Chan::Heart, octets.bytes())?;
        Ok(())
    }

    fn serve_request(
        &mut self,
        alloc: Global,
        now: u64,
        key: &Text,
        chan: Chan,
        body: &Parts,
    ) -> Result<(), NoMemory>
        ensures stands { OnOk result ((s : spec.Standing) → toy.Is self.old s → toy.Is self.new
            (spec.served_if now key.now (requests.request_in key.now chan body.now) s)) }
        ensures keeps { Keeps self.old.lanes self.new.lanes }
    {
        match request_in(alloc, key, chan, body)? {
            Some(Request { parent, asked }) => {
                self.serve_as(alloc, now, key, &parent, asked)?;
                Ok(())
            }
            None => Ok(()),
        }
    }

    fn serve_as(
        &mut self,
        alloc: Global,
        now: u64,
        key: &Text,
        parent: &Json,
        asked: Asked,
    ) -> Result<(), NoMemory>
        ensures stands { OnOk result ((s : spec.Standing) → toy.Is self.old s →
            toy.Is self.new (spec.served_as now key.now parent.now asked s)) }
        ensures keeps { Keeps self.old.lanes self.new.lanes }
    {
        match asked {
            Asked::Execute { code } => self.kernel.queue_cell(alloc, now, key, parent, &code),
            Asked::Info => self.kernel.queue_info(alloc, now, key, parent),
            Asked::Interrupt => self.interrupt(alloc, now, key, parent),
            Asked::Shutdown { restart } => self.shut_down(alloc, key, parent, restart),
        }
    }

    /// The cell that is running, if one is, ends with an error, and the request is answered.
    fn interrupt(
        &mut self,
        alloc: Global,
        now: u64,
        key: &Text,
        parent: &Json,
    ) -> Result<(), NoMemory>
        ensures stands { OnOk result ((s : spec.Standing) → toy.Is self.old s →
            toy.Is self.new (spec.interrupted_answered now key.now parent.now s)) }
        ensures keeps { Keeps self.old.lanes self.new.lanes }
    {
        self.interrupt_cell(alloc, now, key)?;
        let notes = course::control(alloc, interrupt_reply(alloc)?)?;
        self.do_at_once(alloc, key, parent, notes)?;
        Ok(())
    }

    fn interrupt_cell(&mut self, alloc: Global, now: u64, key: &Text) -> Result<(), NoMemory>
        ensures stands { OnOk result ((s : spec.Standing) →
            toy.Is self.old s → toy.Is self.new (spec.interrupt_cell now key.now s)) }
        ensures keeps { Keeps self.old.lanes self.new.lanes }
    {
        let Some((parent, count)) = self.kernel.agenda.running() else {
            return Ok(());
        };
        let parent = copy(alloc, parent)?;
        let notes = course::interrupt_notes(alloc, count)?;
        self.kernel.agenda.cut(alloc, now);
        self.do_at_once(alloc, key, &parent, notes)?;
        Ok(())
    }

    /// The request is answered, and the kernel ends.
    fn shut_down(
        &mut self,
        alloc: Global,
        key: &Text,
        parent: &Json,
        restart: bool,
    ) -> Result<(), NoMemory>
        ensures stands { OnOk result ((s : spec.Standing) → toy.Is self.old s →
            toy.Is self.new (spec.shut_answered key.now parent.now restart s)) }
        ensures keeps { Keeps self.old.lanes self.new.lanes }
    {
        let notes = course::control(alloc, shutdown_reply(alloc, restart)?)?;
        self.do_at_once(alloc, key, parent, notes)?;
        self.kernel.agenda.stop(alloc, 0);
        Ok(())
    }

    /// Notes are done at once.
    fn do_at_once(
        &mut self,
        alloc: Global,
        key: &Text,
        parent: &Json,
        notes: Notes,
    ) -> Result<(), NoMemory>
        ensures stands { OnOk result ((s : spec.Standing) → toy.Is self.old s →
            toy.Is self.new (spec.done_at_once key.now parent.now notes s)) }
        ensures keeps { Keeps self.old.lanes self.new.lanes }
    {
        let acts = self.kernel.acts(alloc, key, parent, notes)?;
        match self.lanes.perform(alloc, acts.as_slice()) {
            Ok(()) => Ok(()),
            Err(_) => Err(NoMemory),
        }
    }

    /// All that is due by a moment happens.
    fn settle(&mut self, alloc: Global, now: u64) -> Result<(), NoMemory>
        requires { now < 2 ^ 47 }
        ensures stands { OnOk result ((s : spec.Standing) →
            toy.Is self.old s → toy.Is self.new (spec.settle_all now s)) }
        ensures keeps { Keeps self.old.lanes self.new.lanes }
        ensures due { IsAsDue now self.old self.new }
        ensures settled { OnOk result (IsSettled now self.new.kernel.agenda) }
    {
        let acts = self.kernel.agenda.acts_by(now);
        if let Err(done) = self.lanes.perform(alloc, acts) {
            // What has happened is due, and must not become due again.
            self.kernel.agenda.pass(alloc, now, done);
            return Err(NoMemory);
        }
        self.kernel.agenda.settle(alloc, now);
        Ok(())
    }

    /// Hands out what is due on a channel by a moment and fits the buffer.
    pub(crate) fn give(&mut self, chan: Chan, now: u64, buf: &mut [u8]) -> Give
        requires bound { now < 2 ^ 47 }
        requires room { 0 < length buf.old }
        ensures answer { Gives (toy.given_at chan now (length buf.old) self.old) result buf.new }
        ensures stands { (s : spec.Standing) →
            toy.Is self.old s → toy.Is self.new (toy.gave chan result s) }
        ensures kernel { self.new.kernel ≡ self.old.kernel }
    {
        let count = self.pour(chan, now, buf);
        if 0 < count {
            self.lanes.hand(chan, count);
            return Give::Bytes(count);
        }
        if self.is_over(chan, now) {
            Give::Ended
        } else {
            Give::Nothing
        }
    }

    /// Whether there is something to hand out on a channel by a moment, octets or the end.
    pub(crate) fn is_ready(&self, chan: Chan, now: u64) -> bool
        requires { now < 2 ^ 47 }
        ensures { (room : ℕ) → 0 < room →
            result ≡ is_something (toy.given_at chan now room self.now) }
    {
        let mut octet = [0u8];
        0 < self.pour(chan, now, &mut octet) || self.is_over(chan, now)
    }

    /// Puts what is due on a channel by a moment into the buffer, as far as it fits.
    fn pour(&self, chan: Chan, now: u64, buf: &mut [u8]) -> usize
        requires { now < 2 ^ 47 }
        ensures within { result ≤ length buf.new }
        ensures len { length buf.new ≡ length buf.old }
        ensures octets { take result buf.new ≡
            take (length buf.old) (toy.due_at chan now self.now) }
    {
        let lane = self.lanes.lane(chan);
        if lane.hears {
            pour_left(&lane.outbox, self.kernel.agenda.acts_by(now), chan, buf)
        } else {
            pour_left(&lane.outbox, &[], chan, buf)
        }
    }

    /// Whether nothing more will be due on a channel.
    fn is_over(&self, chan: Chan, now: u64) -> bool
        requires { now < 2 ^ 47 }
        ensures { result ≡ toy.is_over_at chan now self.now }
    {
        self.kernel.agenda.end_by(now).is_some() || self.lanes.lane(chan).is_broken
    }
}

/// Whether a body may be sent: 1 to 63 parts with at most 64 MiB together.
fn may_be_sent(body: &Parts) -> bool
    ensures { result ≡ spec.is_body body.now }
{
    is_body(body)
}
