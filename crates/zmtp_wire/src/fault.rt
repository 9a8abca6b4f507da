//! Why a stream was refused.
ghost use Rattle.std.specs.Prelude.{◌≡◌};
ghost use Rattle.zmtp_wire.specs.declared.fault.WireFault.TheVariants.{NoMemory as Starved};
ghost use Rattle.zmtp_wire.specs.Fault.{number_of, place_of};

use jtext::NoMemory;
use thiserror::Error;

/// What a peer's stream breaks. `at` is the offset in the stream, from 0, of the octet at which it
/// became certain; it stands still at `u64::MAX`.
#[derive(Clone, Copy, Debug, Drop, PartialEq, Eq, Error)]
pub enum WireFault {
    /// Octet 0 isn't `FF`, or octet 9 isn't `7F`.
    #[error("octet {at}: this is no greeting of ZMTP")]
    Signature { at: u64 },
    /// The major version is below 3.
    #[error("octet {at}: the version is below 3")]
    Version { at: u64 },
    /// The mechanism isn't NULL.
    #[error("octet {at}: the mechanism is not NULL")]
    Mechanism { at: u64 },
    /// A flag octet has a reserved bit, or COMMAND with MORE.
    #[error("octet {at}: there is no such flag octet")]
    Flags { at: u64 },
    /// The size that ends at this place, or the sum of the sizes of the message's frames, is above
    /// 64 MiB.
    #[error("octet {at}: a size of {size} octets is too much")]
    TooLong { at: u64, size: u64 },
    /// MORE on the 64th frame of a message.
    #[error("octet {at}: a message has more than 64 frames")]
    TooMany { at: u64 },
    /// The first unit is no READY that is formed as it should be.
    #[error("octet {at}: the first unit is no READY")]
    Command { at: u64 },
    /// The peer sent ERROR.
    #[error("octet {at}: the peer sent ERROR")]
    PeerError { at: u64 },
    /// READY names no `Socket-Type` that the role may meet.
    #[error("octet {at}: the peer has another type of socket")]
    WrongPeer { at: u64 },
    /// A growth was refused; no fault of the peer's.
    #[error("memory was refused")]
    NoMemory,
}

impl WireFault {
    /// The number of the cause, from 1 to 9 in the order of the variants, and 12 for want of
    /// memory.
    pub fn number(self) -> u32
        ensures { result ≡ number_of self }
    {
        match self {
            WireFault::Signature { .. } => 1,
            WireFault::Version { .. } => 2,
            WireFault::Mechanism { .. } => 3,
            WireFault::Flags { .. } => 4,
            WireFault::TooLong { .. } => 5,
            WireFault::TooMany { .. } => 6,
            WireFault::Command { .. } => 7,
            WireFault::PeerError { .. } => 8,
            WireFault::WrongPeer { .. } => 9,
            WireFault::NoMemory => 12,
        }
    }

    /// The offset in the stream of the octet at which the fault became certain; 0 for want of
    /// memory.
    pub fn place(self) -> u64
        ensures { result ≡ place_of self }
    {
        match self {
            WireFault::Signature { at } => at,
            WireFault::Version { at } => at,
            WireFault::Mechanism { at } => at,
            WireFault::Flags { at } => at,
            WireFault::TooLong { at, .. } => at,
            WireFault::TooMany { at } => at,
            WireFault::Command { at } => at,
            WireFault::PeerError { at } => at,
            WireFault::WrongPeer { at } => at,
            WireFault::NoMemory => 0,
        }
    }
}

impl From<NoMemory> for WireFault {
    ghost from_gives = { λ _ e. e ≡ Starved };

    fn from(_refused: NoMemory) -> WireFault
        ensures { result ≡ WireFault.NoMemory }
    {
        WireFault::NoMemory
    }
}
