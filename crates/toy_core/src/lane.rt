//! `Lane`, the kernel's side of one connection.
ghost use Rattle.std.specs.Prelude.{◌≡◌, ℕ, List, [], false, IfOk, OnOk, OnErr};
ghost use Rattle.world.specs.declared.chan.Chan as channel;
ghost use Rattle.zmtp_peer.specs.Peer as side;
ghost use Rattle.zmtp_wire.specs.Decoder.{IsUnstarved};
ghost use Rattle.toy_core.specs.Sending.{role_on};
ghost use Rattle.toy_core.specs.Standing as spec;
ghost use Rattle.toy_core.specs.Toy.{IsLine};
ghost use Rattle.toy_core.specs.Dues.{Sends};

use crate::outbox::Outbox;
use crate::roles::role_on;
use jtext::{Bytes, NoMemory};
use std::alloc::Global;
use world::Chan;
use zmtp_peer::Peer;
use zmtp_wire::laws::decoder_answers;
use zmtp_wire::{Messages, WireFault};

/// The topic of what is published.
const TOPIC: &[u8] = b"toy";

/// The kernel's side of one connection.
#[derive(Debug, Drop)]
pub(crate) struct Lane {
    peer: Peer,
    pub(crate) outbox: Outbox,
    /// What came breaks the grammar of ZMTP.
    pub(crate) is_broken: bool,
    /// What is sent here goes out: it isn't broken, and on IOPub there is a subscription.
    pub(crate) hears: bool,
}

impl Lane {
    /// A connection that wasn't taken up.
    pub(crate) fn new(alloc: Global, chan: Chan) -> Result<Lane, NoMemory>
        ensures { IfOk result (λ lane. IsLine chan lane (spec.no_line chan)) }
    {
        let peer = Peer::new(alloc, role_on(chan));
        let mut start = Bytes::new(alloc);
        peer.start_bytes(&mut start)?;
        let is_broken = is_broken(&peer);
        let hears = hears(&peer, chan);
        Ok(Lane {
            peer,
            outbox: Outbox::new(alloc, start),
            is_broken,
            hears,
        })
    }

    /// Two connections that weren't taken up, on these channels.
    pub(crate) fn two(alloc: Global, one: Chan, other: Chan) -> Result<(Lane, Lane), NoMemory>
        ensures one { IfOk result (λ p. IsLine one p.0 (spec.no_line one)) }
        ensures other { IfOk result (λ p. IsLine other p.1 (spec.no_line other)) }
    {
        let first = Lane::new(alloc, one)?;
        let second = Lane::new(alloc, other)?;
        Ok((first, second))
    }

    /// The connection is taken up: what came and what was due on the one before it counts no more.
    pub(crate) fn open(&mut self, alloc: Global, chan: Chan)
        ensures { (l : spec.Line) →
            IsLine chan self.old l → IsLine chan self.new (spec.opened_line l) }
    {
        self.peer = Peer::new(alloc, role_on(chan));
        self.outbox.open(alloc);
        self.is_broken = is_broken(&self.peer);
        self.hears = hears(&self.peer, chan);
    }

    /// Takes a piece that came, and gives the bodies of the messages that end in it.
    pub(crate) fn hear(
        &mut self,
        alloc: Global,
        chan: Chan,
        piece: &[u8],
    ) -> Result<Messages, NoMemory>
        ensures line { OnOk result ((l : spec.Line) →
            IsLine chan self.old l → IsLine chan self.new (spec.heard_on piece.now l)) }
        ensures news { IfOk result (λ bodies. (l : spec.Line) →
            IsLine chan self.old l → bodies ≡ spec.news chan l.heard piece.now) }
        ensures outbox { self.new.outbox ≡ self.old.outbox }
    {
        let mut bodies = Messages::new(alloc);
        let fed = self.peer.feed(piece, &mut bodies);
        if is_starved(fed) {
            return Err(NoMemory);
        }
        self.is_broken = is_broken(&self.peer);
        self.hears = hears(&self.peer, chan);
        Ok(bodies)
    }

    /// Octets are sent here, where they go out.
    pub(crate) fn send(&mut self, alloc: Global, octets: &[u8]) -> Result<(), NoMemory>
        ensures line { OnOk result ((c : channel.Chan) (l : spec.Line) →
            IsLine c self.old l → IsLine c self.new (spec.sent_on c octets.now l)) }
        ensures sends { OnOk result (Sends octets.now self.old self.new) }
        ensures err { OnErr result (Sends [] self.old self.new) }
    {
        if self.hears {
            self.outbox.post(alloc, octets)
        } else {
            Ok(())
        }
    }

    /// So many octets were handed out.
    pub(crate) fn hand(&mut self, count: usize)
        ensures { (c : channel.Chan) (l : spec.Line) →
            IsLine c self.old l → IsLine c self.new (spec.handed_line count l) }
    {
        self.outbox.hand(count);
    }
}

/// Whether memory was wanted.
fn is_starved(fed: Result<(), WireFault>) -> bool
    ensures { result ≡ false → IsUnstarved fed }
{
    match fed {
        Err(fault) => fault == WireFault::NoMemory,
        Ok(()) => false,
    }
}

/// Whether what came breaks the grammar.
fn is_broken(peer: &Peer) -> bool
    ensures { (c : channel.Chan) (heard : List ℕ) → side.role_of peer.now ≡ role_on c →
        side.StandsFor peer.now heard [] → result ≡ spec.is_broken c heard }
{
    decoder_answers();
    peer.answer().is_err()
}

/// Whether what is sent on the channel goes out.
fn hears(peer: &Peer, chan: Chan) -> bool
    ensures { (heard : List ℕ) → side.role_of peer.now ≡ role_on chan →
        side.StandsFor peer.now heard [] → result ≡ spec.hears chan heard }
{
    if is_broken(peer) {
        return false;
    }
    match chan {
        Chan::Iopub => peer.wants(TOPIC),
        _ => true,
    }
}
