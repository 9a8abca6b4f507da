//! The decoder: it keeps the unfinished unit and the frames of the unfinished message, and what it
//! still owes.
ghost use Rattle.zmtp_wire.specs.Command.{AreShort};

use crate::fault::WireFault;
use crate::machine::run;
use crate::parts::{Messages, Parts};
use crate::role::Role;
use crate::state::State;
use crate::version::Version;
use jtext::Bytes;
use std::alloc::Global;
use std::mem;

/// Reads a peer's stream in any pieces.
#[derive(Debug, Drop)]
pub struct Decoder {
    alloc: Global,
    role: Role,
    at: u64,
    version: Version,
    state: State,
    owed: Parts,
    ghost short: { AreShort owed },
}

impl Decoder {
    ghost use Rattle.std.specs.Prelude.{◌≡◌, ℕ, List, [], ◌++◌, ◌↔◌, Err, None, IsTrue, false};
    ghost use Rattle.zmtp_wire.specs.declared.fault.WireFault.{WireFault};
    ghost use Rattle.zmtp_wire.specs.declared.fault.WireFault.TheVariants.{NoMemory as Starved};
    ghost use Rattle.zmtp_wire.specs.Greeting.{newer_of};
    ghost use Rattle.zmtp_wire.specs.Stream.{Context, IsShaken};
    ghost use Rattle.zmtp_wire.specs.Decoder.{StandsFor, IsUnstarved, IsStarved, Brings, BringsSome};
    ghost use Rattle.zmtp_wire.specs.Decoder.{answer_of, role_of};
    ghost use Rattle.zmtp_wire.specs.Meaning.{contexts_in};
    ghost use Rattle.zmtp_wire.specs.Command.{AreShort};

    /// A decoder for the stream of a peer that a socket of this role talks to. It takes no memory.
    pub fn new(alloc: Global, role: Role) -> Decoder
        ensures role { role_of result ≡ role }
        ensures stands { StandsFor result [] [] }
    {
        Decoder {
            alloc,
            role,
            at: 0,
            version: Version::new(),
            state: State::Greeting(Bytes::new(alloc)),
            owed: Parts::new(alloc),
        }
    }

    /// Takes the next piece of the peer's stream, cut anywhere, and appends the messages that end
    /// in it to `out`. Any `Err` is final: each later call answers it again.
    pub fn feed(&mut self, piece: &[u8], out: &mut Messages) -> Result<(), WireFault>
        ensures role { role_of self.new ≡ role_of self.old }

        // However the stream is cut, it is read as the grammar reads it whole.
        ensures stands { IsUnstarved result → (b : List ℕ) (given : List Context) →
            StandsFor self.old b given → StandsFor self.new (b ++ piece.now) given }
        ensures brings { IsUnstarved result → (b : List ℕ) (given : List Context) →
            StandsFor self.old b given →
            Brings (role_of self.old) b piece.now out.old out.new result }

        // A refusal is given again, and brings nothing more.
        ensures answer { answer_of self.new ≡ result }
        ensures again { (e : WireFault) → answer_of self.old ≡ Err e →
            (result ≡ Err e) × (out.new ≡ out.old) }

        // Without memory the first ones of the messages are there.
        ensures starved { result ≡ Err Starved → (b : List ℕ) (given : List Context) →
            StandsFor self.old b given →
            BringsSome (role_of self.old) b piece.now out.old out.new }
    {
        let start = self.at;
        self.version = self.version.with(start, piece);
        self.at = start.saturating_add(piece.len() as u64);
        if let Err(fault) = self.answer() {
            return Err(fault);
        }
        let state = mem::replace(&mut self.state, State::Failed(false, WireFault::NoMemory));
        match run(
            self.alloc,
            self.role,
            start,
            state,
            piece,
            out,
            &mut self.owed,
        ) {
            Ok(state) => {
                self.state = state;
                self.answer()
            }
            Err(_) => Err(WireFault::NoMemory),
        }
    }

    /// Ok where the decoder reads on, and else the refusal that it has for good.
    pub fn answer(&self) -> Result<(), WireFault>
        ensures { result ≡ answer_of self.now }
    {
        match &self.state {
            State::Greeting(_) => Ok(()),
            State::Units(_, _) => Ok(()),
            State::Failed(_, fault) => Err(*fault),
        }
    }

    /// Whether the peer's READY was read; false once memory was wanted.
    pub fn shaken(&self) -> bool
        ensures is { (b : List ℕ) (given : List Context) →
            StandsFor self.now b given → (IsTrue result ↔ IsShaken (role_of self.now) b) }
        ensures starved { IsStarved self.now → result ≡ false }
    {
        if self.is_starved() {
            return false;
        }
        self.state.is_shaken()
    }

    /// Whether the peer speaks 3.1 or above; `None` until twelve octets of its stream have come,
    /// and once memory was wanted.
    pub fn newer(&self) -> Option<bool>
        ensures is { (b : List ℕ) (given : List Context) →
            StandsFor self.now b given → result ≡ newer_of b }
        ensures starved { IsStarved self.now → result ≡ None }
    {
        if self.is_starved() {
            return None;
        }
        if self.at < 12 {
            return None;
        }
        Some(self.version.is_newer())
    }

    /// The contexts of the PINGs since the last such call, in order; none once memory was wanted.
    /// It takes no memory.
    pub fn owed(&mut self) -> Parts
        ensures role { role_of self.new ≡ role_of self.old }
        ensures stands { (b : List ℕ) (given : List Context) →
            StandsFor self.old b given → StandsFor self.new b (given ++ result) }
        ensures answer { answer_of self.new ≡ answer_of self.old }

        // With those that were given before they are the contexts of the stream.
        ensures contexts { (b : List ℕ) (given : List Context) →
            StandsFor self.old b given → given ++ result ≡ contexts_in (role_of self.old) b }
        ensures starved { IsStarved self.old → result ≡ [] }
        ensures short { AreShort result }
    {
        if self.is_starved() {
            return Parts::new(self.alloc);
        }
        mem::replace(&mut self.owed, Parts::new(self.alloc))
    }

    /// Whether memory was wanted.
    fn is_starved(&self) -> bool
        ensures { IsTrue result ↔ IsStarved self.now }
    {
        match self.answer() {
            Err(fault) => fault == WireFault::NoMemory,
            Ok(()) => false,
        }
    }
}
