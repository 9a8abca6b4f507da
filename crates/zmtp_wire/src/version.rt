//! The version that a greeting tells.
ghost use Rattle.std.specs.Prelude.{◌≡◌, ℕ, List, ◌++◌, ◌<◌, length, slice_index};
ghost use Rattle.zmtp_wire.specs.Fault.{clip};
ghost use Rattle.zmtp_wire.specs.Greeting.{is_newer};

/// Octets 10 and 11 of a stream, each 0 until it has come.
#[derive(Clone, Copy, Debug, Drop, PartialEq, Eq)]
pub struct Version {
    pub major: u8,
    pub minor: u8,
}

impl Version {
    /// Before any octet.
    pub fn new() -> Version
        ensures major { result.major ≡ 0 }
        ensures minor { result.minor ≡ 0 }
    {
        Version { major: 0, minor: 0 }
    }

    /// With a piece that begins at the offset `at` of the stream.
    pub fn with(self, at: u64, piece: &[u8]) -> Version
        ensures major { (b : List ℕ) → at ≡ clip (length b) → self.major ≡ slice_index b 10 →
            result.major ≡ slice_index (b ++ piece.now) 10 }
        ensures minor { (b : List ℕ) → at ≡ clip (length b) → self.minor ≡ slice_index b 11 →
            result.minor ≡ slice_index (b ++ piece.now) 11 }
    {
        Version {
            major: octet_at(10, at, piece, self.major),
            minor: octet_at(11, at, piece, self.minor),
        }
    }

    /// Whether the version is 3.1 or above.
    pub fn is_newer(self) -> bool
        ensures { result ≡ is_newer self.major self.minor }
    {
        3 < self.major || self.major == 3 && 1 <= self.minor
    }
}

/// The octet at `place` of a stream whose next piece begins at `at`, where `known` is what stood
/// there before.
fn octet_at(place: u64, at: u64, piece: &[u8], known: u8) -> u8
    requires { place < 64 }
    ensures { (b : List ℕ) → at ≡ clip (length b) → known ≡ slice_index b place →
        result ≡ slice_index (b ++ piece.now) place }
{
    if place < at {
        return known;
    }
    let offset = place - at;
    if offset < piece.len() as u64 {
        return piece[offset as usize];
    }
    known
}
