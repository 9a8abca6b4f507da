//! Our side of one connection.
ghost use Rattle.std.specs.Prelude.{◌≡◌, ℕ, List, [], ◌++◌, ◌<◌, ◌≤◌, ◌+◌, ◌↔◌, length, sum_by};
ghost use Rattle.std.specs.Prelude.{Err, OnOk, OnErr, IsErr, IfSome, IfNone, IsTrue, true, false};
ghost use Rattle.zmtp_wire.specs.declared.fault.WireFault.{WireFault};
ghost use Rattle.zmtp_wire.specs.declared.fault.WireFault.TheVariants.{NoMemory as Starved};
ghost use Rattle.zmtp_wire.specs.Command.{AreShort};
ghost use Rattle.zmtp_wire.specs.Frame.{MOST};
ghost use Rattle.zmtp_wire.specs.Stream.{IsShaken};
ghost use Rattle.zmtp_wire.specs.Decoder.{IsUnstarved};
ghost use Rattle.zmtp_wire.specs.Machine.{GrowsBy};
ghost use Rattle.zmtp_wire.specs.Writing.{greeting_octets, ready_octets, message_octets};
ghost use Rattle.zmtp_peer.specs.Envelope.{with_envelope, bodies_of};
ghost use Rattle.zmtp_peer.specs.Subscription.{prefixes_after, prefixes_after_one, prefixes_in};
ghost use Rattle.zmtp_peer.specs.Subscription.{IsWanted};
ghost use Rattle.zmtp_peer.specs.Reply.{Owes, pongs, subscription_to};
ghost use Rattle.zmtp_peer.specs.Peer.{StandsFor, Brings, BringsSome, IsDue, IsSettled, IsStarved};
ghost use Rattle.zmtp_peer.specs.Peer.{answer_of, role_of};

use crate::envelope::{body_in, has_envelope};
use crate::reply::{is_sub, put_replies, subscription_octets};
use crate::subscription::{is_wanted, take_message};
use jtext::{Bytes, NoMemory};
use std::alloc::Global;
use zmtp_wire::{Decoder, Messages, Parts, Role, WireFault, greeting, put_message, put_ready};

/// Our side of one connection: what we send first, and what we read of the other side.
#[derive(Debug, Drop)]
pub struct Peer {
    alloc: Global,
    role: Role,
    decoder: Decoder,
    prefixes: Parts,
    subscribed: bool,
    starved: bool,
}

impl Peer {
    /// Our side of a new connection of a socket of this role. It takes no memory.
    pub fn new(alloc: Global, role: Role) -> Peer
        ensures role { role_of result ≡ role }
        ensures stands { StandsFor result [] [] }
    {
        Peer {
            alloc,
            role,
            decoder: Decoder::new(alloc, role),
            prefixes: Parts::new(alloc),
            subscribed: false,
            starved: false,
        }
    }

    /// Appends what we send first, the greeting and READY. Without memory nothing changes.
    pub fn start_bytes(&self, out: &mut Bytes) -> Result<(), NoMemory>
        ensures ok { OnOk result
            (out.new ≡ out.old ++ (greeting_octets ++ ready_octets (role_of self.now))) }
        ensures err { OnErr result (out.new ≡ out.old) }
    {
        let mut octets = Bytes::of(self.alloc, &greeting())?;
        put_ready(self.alloc, self.role, &mut octets)?;
        out.add(octets.bytes())
    }

    /// Appends a message of 1 to 63 parts with the envelope of the role. Without memory nothing
    /// changes.
    pub fn message_bytes(&self, parts: &Parts, out: &mut Bytes) -> Result<(), NoMemory>
        requires some { 0 < length parts.now }
        requires few { length parts.now ≤ 63 }
        requires small { sum_by length parts.now ≤ MOST }
        ensures ok { OnOk result
            (out.new ≡ out.old ++ message_octets (with_envelope (role_of self.now) parts.now)) }
        ensures err { OnErr result (out.new ≡ out.old) }
    {
        if !has_envelope(self.role) {
            return put_message(self.alloc, parts, out);
        }
        // An empty frame with MORE.
        let mut octets = Bytes::of(self.alloc, &[1, 0])?;
        put_message(self.alloc, parts, &mut octets)?;
        out.add(octets.bytes())
    }

    /// Takes the next piece of the other side's stream, cut anywhere, and appends the messages that
    /// end in it to `out`, without envelope. Any `Err` is final: each later call answers it again.
    pub fn feed(&mut self, piece: &[u8], out: &mut Messages) -> Result<(), WireFault>
        ensures role { role_of self.new ≡ role_of self.old }

        // However the stream is cut, it is read as the grammar reads it whole.
        ensures stands { IsUnstarved result → (b sent : List ℕ) →
            StandsFor self.old b sent → StandsFor self.new (b ++ piece.now) sent }
        ensures brings { IsUnstarved result → (b sent : List ℕ) →
            StandsFor self.old b sent →
            Brings (role_of self.old) b piece.now out.old out.new result }

        // A refusal is given again, and brings nothing more.
        ensures answer { answer_of self.new ≡ result }
        ensures again { (e : WireFault) → answer_of self.old ≡ Err e →
            (result ≡ Err e) × (out.new ≡ out.old) }

        // Without memory the first ones of the messages are there.
        ensures starved { result ≡ Err Starved → (b sent : List ℕ) →
            StandsFor self.old b sent →
            BringsSome (role_of self.old) b piece.now out.old out.new }
    {
        if self.starved {
            return Err(WireFault::NoMemory);
        }
        let mut came = Messages::new(self.alloc);
        let answer = self.decoder.feed(piece, &mut came);
        if came.len() == 0 {
            return answer;
        }
        match deliver(self.alloc, self.role, came, &mut self.prefixes, out) {
            Ok(()) => answer,
            Err(_) => {
                self.starved = true;
                Err(WireFault::NoMemory)
            }
        }
    }

    /// Appends what we owe the other side beside messages and haven't given: the subscription of a
    /// SUB, once the handshake is finished, and then a PONG for each PING, in order. Want of memory
    /// is final, and changes nothing.
    pub fn replies(&mut self, out: &mut Bytes) -> Result<(), NoMemory>
        ensures role { role_of self.new ≡ role_of self.old }

        // What was given before with this is all that is owed, each once.
        ensures owes { OnOk result ((b sent : List ℕ) → StandsFor self.old b sent →
            (more : List ℕ) × (out.new ≡ out.old ++ more) ×
            Owes (role_of self.old) b (sent ++ more) × StandsFor self.new b (sent ++ more)) }
        ensures answer { OnOk result (answer_of self.new ≡ answer_of self.old) }

        // After a refusal each later call is refused.
        ensures err { OnErr result (out.new ≡ out.old) }
        ensures starved { OnErr result (IsStarved self.new) }
        ensures again { IsStarved self.old → IsErr result }
    {
        if self.is_starved() {
            return Err(NoMemory);
        }
        match self.subscription_due() {
            Some(subscription) => {
                let contexts = self.decoder.owed();
                self.subscribed = true;
                self.give(subscription, &contexts, out)
            }
            None => {
                let contexts = self.decoder.owed();
                self.give(b"", &contexts, out)
            }
        }
    }

    /// The subscription, where it is due and wasn't given.
    fn subscription_due(&self) -> Option<&'static [u8]>
        ensures some { (b sent : List ℕ) → StandsFor self.now b sent →
            IfSome result (λ s. IsDue self.now b s.now) }
        ensures none { (b sent : List ℕ) → StandsFor self.now b sent →
            IfNone result (IsSettled self.now b) }
    {
        if !is_sub(self.role) {
            return None;
        }
        if self.subscribed {
            return None;
        }
        if !self.decoder.shaken() {
            return None;
        }
        match self.decoder.newer() {
            Some(newer) => Some(subscription_octets(newer)),
            None => None,
        }
    }

    /// Appends a subscription and PONGs, and has failed for good where there is no memory.
    fn give(
        &mut self,
        subscription: &[u8],
        contexts: &Parts,
        out: &mut Bytes,
    ) -> Result<(), NoMemory>
        requires { AreShort contexts.now }
        ensures ok { OnOk result
            ((out.new ≡ out.old ++ (subscription.now ++ pongs contexts.now)) ×
            (self.new ≡ self.old)) }
        ensures err { OnErr result
            ((out.new ≡ out.old) × (self.new ≡ record self.old { starved = true })) }
    {
        match put_replies(self.alloc, subscription, contexts, out) {
            Ok(()) => Ok(()),
            Err(refused) => {
                self.starved = true;
                Err(refused)
            }
        }
    }

    /// The subscription that we owe the other side by now, whether it was given or not; empty where
    /// we owe none.
    pub fn subscription(&self) -> &'static [u8]
        ensures is { (b sent : List ℕ) → StandsFor self.now b sent →
            result.now ≡ subscription_to (role_of self.now) b }
        ensures starved { IsStarved self.now → result.now ≡ [] }
    {
        if !is_sub(self.role) {
            return b"";
        }
        if !self.shaken() {
            return b"";
        }
        match self.decoder.newer() {
            Some(newer) => subscription_octets(newer),
            None => b"",
        }
    }

    /// Ok where we read on, and else the refusal that we have for good.
    pub fn answer(&self) -> Result<(), WireFault>
        ensures { result ≡ answer_of self.now }
    {
        if self.starved {
            return Err(WireFault::NoMemory);
        }
        self.decoder.answer()
    }

    /// Whether the other side's READY was read; false once memory was wanted.
    pub fn shaken(&self) -> bool
        ensures is { (b sent : List ℕ) →
            StandsFor self.now b sent → (IsTrue result ↔ IsShaken (role_of self.now) b) }
        ensures starved { IsStarved self.now → result ≡ false }
    {
        if self.is_starved() {
            return false;
        }
        self.decoder.shaken()
    }

    /// Whether a subscription in force is a prefix of the topic; false once memory was wanted. Only
    /// a PUB has subscriptions.
    pub fn wants(&self, topic: &[u8]) -> bool
        ensures is { (b sent : List ℕ) → StandsFor self.now b sent →
            (IsTrue result ↔ IsWanted (prefixes_in (role_of self.now) b) topic.now) }
        ensures starved { IsStarved self.now → result ≡ false }
    {
        if self.is_starved() {
            return false;
        }
        is_wanted(&self.prefixes, topic)
    }

    /// Whether memory was wanted.
    fn is_starved(&self) -> bool
        ensures { IsTrue result ↔ IsStarved self.now }
    {
        match self.answer() {
            Err(fault) => fault == WireFault::NoMemory,
            Ok(()) => false,
        }
    }
}

/// Hands out the bodies of messages that came, and keeps a subscriber's prefixes.
fn deliver(
    alloc: Global,
    role: Role,
    came: Messages,
    prefixes: &mut Parts,
    out: &mut Messages,
) -> Result<(), NoMemory>
    ensures bodies { OnOk result (out.new ≡ out.old ++ bodies_of role came) }
    ensures prefixes { OnOk result (prefixes.new ≡ prefixes_after role prefixes.old came) }
    ensures starved { OnErr result (GrowsBy out.old out.new (bodies_of role came)) }
{
    for message in came.into_vec() {
        note(alloc, role, &message, prefixes)?;
        if let Some(body) = body_in(role, message) {
            out.push(body)?;
        }
    }
    Ok(())
}

/// Keeps what a message means to a PUB.
fn note(alloc: Global, role: Role, message: &Parts, prefixes: &mut Parts) -> Result<(), NoMemory>
    ensures { OnOk result (prefixes.new ≡ prefixes_after_one role prefixes.old message.now) }
{
    match role {
        Role::Pub => take_message(alloc, message, prefixes),
        _ => Ok(()),
    }
}
