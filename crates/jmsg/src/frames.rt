//! The frames of a message: routing frames, the delimiter, the signature, four dictionaries,
//! buffers.
ghost use Rattle.std.specs.Prelude.{◌≡◌, ◌++◌, ◌<◌, length, position, IfSome, IfNone, OnOk, Some};
ghost use Rattle.std.specs.Str.{bytes_eq};
ghost use Rattle.jmsg.specs.Signed.{delimiter, AreRouting, Follow, Frames};

use jtext::{Bytes, NoMemory};
use std::alloc::Global;
use zmtp_wire::Parts;

/// What parts the routing frames from the message.
pub(crate) const DELIMITER: &[u8] = b"<IDS|MSG>";

/// The parts after the first delimiter.
pub(crate) fn after_delimiter(parts: &[Bytes]) -> Option<&[Bytes]>
    ensures some { IfSome result (λ after. Follow parts.now after.now) }
    ensures none { IfNone result (AreRouting parts.now) }
{
    let place = delimiter_place(parts)?;
    Some(&parts[place + 1..])
}

/// The place of the first delimiter among the parts of a message, counted from 0; `None` where there
/// is none.
pub fn delimiter_place(parts: &[Bytes]) -> Option<usize>
    ensures place { result ≡ position (bytes_eq delimiter) parts.now }
    ensures within { IfSome result (λ place. place < length parts.now) }
{
    parts.iter().position(|part| DELIMITER == part.bytes())
}

/// The signature of a message, before anything is tested of it; `None` where no delimiter stands,
/// fewer than five parts follow it, or the first of these isn't 64 octets long.
pub fn signature(parts: &Parts) -> Option<[u8; 64]>
    ensures some { IfSome result (λ sig. (f : Frames parts.now) × (f.signature ≡ sig)) }
    ensures only { (f : Frames parts.now) → length f.signature ≡ 64 → result ≡ Some f.signature }
{
    let [signature, _, _, _, _, ..] = after_delimiter(parts.as_slice())? else {
        return None;
    };
    octets_64(signature.bytes())
}

fn octets_64(bytes: &[u8]) -> Option<[u8; 64]>
    ensures some { IfSome result (λ r. r ≡ bytes.now) }
    ensures only { length bytes.now ≡ 64 → result ≡ Some bytes.now }
{
    bytes.try_into().ok()
}

/// Puts copies of the parts at the end.
pub(crate) fn append_copies(alloc: Global, out: &mut Parts, parts: &[Bytes]) -> Result<(), NoMemory>
    ensures { OnOk result (out.new ≡ out.old ++ parts.now) }
{
    for part in parts {
        out.push(Bytes::of(alloc, part.bytes())?)?;
    }
    Ok(())
}
