//! `Line`, our side of one connection, and what is due on it.
ghost use Rattle.std.specs.Prelude.{◌≡◌, IfOk};
ghost use Rattle.zmtp_wire.specs.Decoder.{IsUnstarved};
ghost use Rattle.kernel_lines.specs.Ends.{end_with, answer_by};

use jtext::{Bytes, NoMemory};
use std::alloc::Global;
use std::mem;
use zmtp_peer::Peer;
use zmtp_wire::{Messages, Parts, Role, WireFault};

/// Our side of one connection. Octets are counted from its begin, up to 2^64 - 1.
#[derive(Drop)]
pub struct Line {
    alloc: Global,
    peer: Peer,
    /// What is due and wasn't handed out.
    queue: Bytes,
    /// What waits for the end of the handshake.
    waiting: Bytes,
    /// How many octets were due so far.
    due: u64,
    /// How many octets were taken of those.
    taken: u64,
    /// How many octets were due with the subscription.
    subscription_end: Option<u64>,
}

impl Line {
    ghost use Rattle.std.specs.Prelude.{◌≡◌, ◌≤◌, ◌<◌, ℕ, List, [], ◌∷◌, ◌++◌, length, sum_by};
    ghost use Rattle.std.specs.Prelude.{OnOk, OnErr, None, Some, nat_le};
    ghost use Rattle.zmtp_wire.specs.Fault.{clip};
    ghost use Rattle.zmtp_wire.specs.Meaning.{is_shaken};
    ghost use Rattle.zmtp_peer.specs.Peer.{Brings};
    ghost use Rattle.zmtp_peer.specs.Sending.{IsBody};
    ghost use Rattle.kernel_lines.specs.Happened.{History, Came, Given, came_in};
    ghost use Rattle.kernel_lines.specs.Due.{due_in, sent_octets, subscription_end};
    ghost use Rattle.kernel_lines.specs.Line.{StandsFor, role_of, queue_of, taken_of};
    ghost use Rattle.kernel_lines.specs.Line.{IsBehind, IsPut, IsReleased, NotesEnd, Replies};
    ghost use Rattle.kernel_lines.specs.Line.{clip_place, is_within, HandsOut};

    /// Our side of a new connection of a socket of this role: the greeting and READY are due.
    pub fn new(alloc: Global, role: Role) -> Result<Line, NoMemory>
        ensures role { IfOk result (λ l. role_of l ≡ role) }
        ensures stands { IfOk result (λ l. StandsFor l [] []) }
        ensures taken { IfOk result (λ l. taken_of l ≡ 0) }
    {
        let peer = Peer::new(alloc, role);
        let mut queue = Bytes::new(alloc);
        peer.start_bytes(&mut queue)?;
        let due = queue.len() as u64;
        Ok(Line {
            alloc,
            peer,
            queue,
            waiting: Bytes::new(alloc),
            due,
            taken: 0,
            subscription_end: None,
        })
    }

    /// Whether the handshake is finished.
    pub fn is_shaken(&self) -> bool
        ensures { (h : History) (out : List ℕ) → StandsFor self.now h out →
            result ≡ is_shaken (role_of self.now) (came_in h) }
    {
        self.peer.shaken()
    }

    /// Whether the subscription was taken whole.
    pub fn is_subscribed(&self) -> bool
        ensures { (h : History) (out : List ℕ) → StandsFor self.now h out → result ≡
            is_within (clip_place (subscription_end (role_of self.now) h)) (taken_of self.now) }
    {
        match self.subscription_end {
            Some(end) => end <= self.taken,
            None => false,
        }
    }

    /// How many octets were taken.
    pub fn taken(&self) -> u64
        ensures { result ≡ taken_of self.now }
    {
        self.taken
    }

    /// How many octets were due so far.
    pub fn due(&self) -> u64
        ensures { (h : History) (out : List ℕ) → StandsFor self.now h out →
            result ≡ clip (length (due_in (role_of self.now) h)) }
    {
        self.due
    }

    /// So many octets were taken.
    pub fn on_taken(&mut self, taken: u64)
        ensures taken { taken_of self.new ≡ taken }
        ensures role { role_of self.new ≡ role_of self.old }
        ensures stands { (h : History) (out : List ℕ) →
            StandsFor self.old h out → StandsFor self.new h out }
    {
        self.taken = taken;
    }

    /// Takes a piece that came, cut anywhere, and gives the messages that end in it, without
    /// envelope. A broken stream is answered with the messages before its fault.
    pub fn feed(&mut self, piece: &[u8]) -> Result<(Messages, Option<WireFault>), NoMemory>
        ensures role { role_of self.new ≡ role_of self.old }
        ensures taken { taken_of self.new ≡ taken_of self.old }
        ensures stands { OnOk result ((h : History) (out : List ℕ) →
            StandsFor self.old h out → StandsFor self.new (Came piece.now ∷ h) out) }
        ensures brings { IfOk result (λ r. (h : History) (out : List ℕ) →
            StandsFor self.old h out →
            Brings (role_of self.old) (came_in h) piece.now [] r.0 (answer_by r.1)) }
    {
        let mut messages = Messages::new(self.alloc);
        let answer = self.peer.feed(piece, &mut messages);
        let fault = fault_of(answer)?;
        self.reply()?;
        Ok((messages, fault))
    }

    /// Queues what is owed, and what waited for the end of the handshake.
    fn reply(&mut self) -> Result<(), NoMemory>
        ensures role { role_of self.new ≡ role_of self.old }
        ensures taken { taken_of self.new ≡ taken_of self.old }
        ensures stands { OnOk result ((h : History) (out piece : List ℕ) →
            IsBehind self.old h out piece → StandsFor self.new (Came piece ∷ h) out) }
    {
        self.note_subscription();
        let owed = self.take_owed()?;
        self.put(owed.bytes())?;
        if self.peer.shaken() {
            self.release()
        } else {
            Ok(())
        }
    }

    /// What is owed and wasn't given.
    fn take_owed(&mut self) -> Result<Bytes, NoMemory>
        ensures is { IfOk result (λ more. Replies self.old self.new more) }
        ensures role { role_of self.new ≡ role_of self.old }
        ensures taken { taken_of self.new ≡ taken_of self.old }
    {
        let mut octets = Bytes::new(self.alloc);
        self.peer.replies(&mut octets)?;
        Ok(octets)
    }

    /// Notes where the subscription ends, once it is owed.
    fn note_subscription(&mut self)
        ensures { NotesEnd self.old self.new }
    {
        let subscription = self.peer.subscription();
        self.subscription_end = end_after(self.subscription_end, self.due, subscription);
    }

    /// What waited for the end of the handshake is due.
    fn release(&mut self) -> Result<(), NoMemory>
        ensures ok { OnOk result (IsReleased self.old self.new) }
        ensures role { role_of self.new ≡ role_of self.old }
        ensures taken { taken_of self.new ≡ taken_of self.old }
    {
        let waiting = mem::replace(&mut self.waiting, Bytes::new(self.alloc));
        self.put(waiting.bytes())
    }

    /// A message of 1 to 63 parts is due: it goes out in its turn, behind the handshake.
    pub fn send(&mut self, parts: &Parts) -> Result<(), NoMemory>
        requires { IsBody parts.now }
        ensures role { role_of self.new ≡ role_of self.old }
        ensures taken { taken_of self.new ≡ taken_of self.old }
        ensures stands { OnOk result ((h : History) (out : List ℕ) →
            StandsFor self.old h out → StandsFor self.new (Given parts.now ∷ h) out) }
    {
        let octets = self.octets_of(parts)?;
        if self.peer.shaken() {
            self.put(octets.bytes())
        } else {
            self.waiting.add(octets.bytes())
        }
    }

    /// A message as the role sends it.
    fn octets_of(&self, parts: &Parts) -> Result<Bytes, NoMemory>
        requires { IsBody parts.now }
        ensures { IfOk result (λ octets. octets ≡ sent_octets (role_of self.now) parts.now) }
    {
        let mut octets = Bytes::new(self.alloc);
        self.peer.message_bytes(parts, &mut octets)?;
        Ok(octets)
    }

    /// Octets are due.
    fn put(&mut self, octets: &[u8]) -> Result<(), NoMemory>
        ensures ok { OnOk result (IsPut self.old self.new octets.now) }
        ensures err { OnErr result (self.new ≡ self.old) }
    {
        self.queue.add(octets)?;
        self.due = self.due.saturating_add(octets.len() as u64);
        Ok(())
    }

    /// Hands out what is due, where there is anything that wasn't handed out.
    pub fn take(&mut self) -> Option<Bytes>
        ensures handed { HandsOut (queue_of self.old) result }
        ensures role { role_of self.new ≡ role_of self.old }
        ensures taken { taken_of self.new ≡ taken_of self.old }
        ensures stands { (h : History) (out : List ℕ) → StandsFor self.old h out →
            StandsFor self.new h (out ++ queue_of self.old) }
    {
        if self.queue.is_empty() {
            return None;
        }
        Some(mem::replace(&mut self.queue, Bytes::new(self.alloc)))
    }
}

/// Where the subscription ends, where it begins behind so many octets.
fn end_after(end: Option<u64>, due: u64, subscription: &[u8]) -> Option<u64>
    ensures { result ≡ end_with end due subscription.now }
{
    match end {
        Some(end) => Some(end),
        None => {
            if subscription.is_empty() {
                None
            } else {
                Some(due.saturating_add(subscription.len() as u64))
            }
        }
    }
}

/// What breaks a stream that has this answer.
fn fault_of(answer: Result<(), WireFault>) -> Result<Option<WireFault>, NoMemory>
    ensures { IfOk result (λ fault. IsUnstarved answer × (answer ≡ answer_by fault)) }
{
    match answer {
        Ok(()) => Ok(None),
        Err(fault) => {
            if fault == WireFault::NoMemory {
                Err(NoMemory)
            } else {
                Ok(Some(fault))
            }
        }
    }
}
