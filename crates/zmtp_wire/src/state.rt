//! What a decoder keeps between two octets: the unfinished unit and the frames of the unfinished
//! message.
//!
//! `Greeting`, the 64th octet: `Units(Handshake, Fresh)`; READY's last octet: `Units(Traffic,
//! Fresh)`; any octet that fails a test: `Failed`, for good. Within `Units` a flag octet opens
//! `Size`, the last octet of a size `Body`.
ghost use Rattle.std.specs.Prelude.{◌≡◌};
ghost use Rattle.zmtp_wire.specs.Decoder.{shaken_in};
ghost use Rattle.zmtp_wire.specs.Machine.{is_over, failure};

use crate::cause::Cause;
use crate::fault::WireFault;
use crate::parts::Parts;
use jtext::Bytes;

/// The unit that comes, up to the last octet.
#[derive(Debug, Drop)]
pub enum Open {
    /// Its flag octet is to come.
    Fresh,
    /// The flag octet, and the octets of the size so far.
    Size(u8, Bytes),
    /// The flag octet, the size, and the octets of the body so far.
    Body(u8, u64, Bytes),
}

/// Where after the greeting the stream is; the flag says whether the peer speaks 3.1.
#[derive(Debug, Drop)]
pub enum Phase {
    Handshake(bool),
    /// With the frames of the unfinished message.
    Traffic(bool, Parts),
}

/// Where the stream is.
#[derive(Debug, Drop)]
pub enum State {
    /// The octets of the greeting so far, fewer than 64.
    Greeting(Bytes),
    Units(Phase, Open),
    /// Whether the handshake was over, and why the stream is refused.
    Failed(bool, WireFault),
}

impl Phase {
    /// Whether the handshake is over.
    pub fn is_over(&self) -> bool
        ensures { result ≡ is_over self.now }
    {
        match self {
            Phase::Handshake(_) => false,
            Phase::Traffic(_, _) => true,
        }
    }

    /// The state where the octet at `at` failed in this phase.
    pub fn failure(&self, at: u64, cause: Cause) -> State
        ensures { result ≡ failure self.now at cause }
    {
        State::Failed(self.is_over(), cause.at(at))
    }
}

impl State {
    /// Whether the handshake is over.
    pub fn is_shaken(&self) -> bool
        ensures { result ≡ shaken_in self.now }
    {
        match self {
            State::Greeting(_) => false,
            State::Units(phase, _) => phase.is_over(),
            State::Failed(over, _) => *over,
        }
    }
}
