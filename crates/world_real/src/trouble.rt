//! Why a call on a connection got no byte through.
ghost use Rattle.std.specs.Prelude.{◌≡◌};
ghost use Rattle.world_real.specs.Answers as spec;

use std::io::ErrorKind;

/// What the error of a call on a connection tells of.
#[derive(Clone, Copy, Debug, Drop, PartialEq, Eq)]
pub(crate) enum Trouble {
    /// Nothing can pass for now.
    Later,
    /// Nobody took the connection up.
    TurnedAway,
    /// The other side has ended it.
    Broken,
    /// Anything else.
    Unknown,
}

/// What an error of this kind tells of.
pub(crate) fn trouble_of(kind: ErrorKind) -> Trouble
    ensures { result ≡ spec.trouble_of kind }
{
    match kind {
        ErrorKind::WouldBlock => Trouble::Later,
        ErrorKind::ConnectionRefused => Trouble::TurnedAway,
        ErrorKind::ConnectionReset | ErrorKind::BrokenPipe => Trouble::Broken,
        _ => Trouble::Unknown,
    }
}
