//! The greeting, 64 octets: 0 is `FF`, 9 is `7F`, 10 the major version, 11 the minor one, 12 to 31
//! the mechanism, 32 whether we serve, the others 0. Read more loosely than the standard: octets 1
//! to 8 and 32 to 63 are free.
ghost use Rattle.std.specs.Prelude.{◌≡◌, ◌∷◌, ◌++◌, ◌<◌, ◌≤◌, [], length, IfOk, OnOk};
ghost use Rattle.zmtp_wire.specs.Greeting.{passes, greeting_cause, speaks};
ghost use Rattle.zmtp_wire.specs.Machine.{greeting_step};
ghost use Rattle.zmtp_wire.specs.Writing.{greeting_octets};

use crate::cause::Cause;
use crate::state::{Open, Phase, State};
use jtext::{Bytes, NoMemory};

/// The 64 octets that open a stream of ours: version 3.1, mechanism NULL.
pub fn greeting() -> [u8; 64]
    ensures { result ≡ greeting_octets }
{
    [
        0xFF, 0, 0, 0, 0, 0, 0, 0, 0, 0x7F, 3, 1, b'N', b'U', b'L', b'L', 0, 0, 0, 0, 0, 0, 0, 0,
        0, 0, 0, 0, 0, 0, 0, 0, 0, 0, 0, 0, 0, 0, 0, 0, 0, 0, 0, 0, 0, 0, 0, 0, 0, 0, 0, 0, 0, 0,
        0, 0, 0, 0, 0, 0, 0, 0, 0, 0,
    ]
}

/// What one more octet of the greeting brings.
#[tactic(auto, unfolding(crate::specs::Machine::greeting_step))]
pub fn greeting_step(at: u64, so_far: Bytes, octet: u8) -> Result<State, NoMemory>
    ensures { IfOk result (λ s. s ≡ greeting_step at so_far octet) }
{
    let i = so_far.len();
    if !passes(i, octet) {
        return Ok(State::Failed(false, greeting_cause(i).at(at)));
    }
    let mut octets = so_far;
    octets.push(octet)?;
    if i == 63 {
        let newer = speaks(octets.bytes());
        return Ok(State::Units(Phase::Handshake(newer), Open::Fresh));
    }
    Ok(State::Greeting(octets))
}

/// Whether the octet may stand at `i`.
pub fn passes(i: usize, octet: u8) -> bool
    ensures { result ≡ passes i octet }
{
    match i {
        0 => octet == 0xFF,
        9 => octet == 0x7F,
        10 => 3 <= octet,
        12 => octet == b'N',
        13 => octet == b'U',
        14 | 15 => octet == b'L',
        16..32 => octet == 0,
        _ => true,
    }
}

pub fn greeting_cause(i: usize) -> Cause
    ensures { result ≡ greeting_cause i }
{
    if i < 10 {
        Cause::Signature
    } else if i == 10 {
        Cause::Version
    } else {
        Cause::Mechanism
    }
}

/// Whether the sender of the greeting speaks 3.1.
pub fn speaks(greeting: &[u8]) -> bool
    requires { length greeting.now ≡ 64 }
    ensures { result ≡ speaks greeting.now }
{
    3 < greeting[10] || greeting[10] == 3 && 1 <= greeting[11]
}
