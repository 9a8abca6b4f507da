//! What a stream breaks, wherever it does.
ghost use Rattle.std.specs.Prelude.{◌≡◌};
ghost use Rattle.zmtp_wire.specs.Fault.{fault_at};

use crate::fault::WireFault;

/// A fault of a peer's without its place.
#[derive(Clone, Copy, Debug, Drop, PartialEq, Eq)]
pub enum Cause {
    Signature,
    Version,
    Mechanism,
    Flags,
    TooLong(u64),
    TooMany,
    Command,
    PeerError,
    WrongPeer,
}

impl Cause {
    /// The fault at this place.
    pub fn at(self, at: u64) -> WireFault
        ensures { result ≡ fault_at at self }
    {
        match self {
            Cause::Signature => WireFault::Signature { at },
            Cause::Version => WireFault::Version { at },
            Cause::Mechanism => WireFault::Mechanism { at },
            Cause::Flags => WireFault::Flags { at },
            Cause::TooLong(size) => WireFault::TooLong { at, size },
            Cause::TooMany => WireFault::TooMany { at },
            Cause::Command => WireFault::Command { at },
            Cause::PeerError => WireFault::PeerError { at },
            Cause::WrongPeer => WireFault::WrongPeer { at },
        }
    }
}
