//! Messages as one text, and of one part.

ghost use Rattle.std.specs.Prelude.{◌≡◌, ◌∷◌, [], IfOk};

use jtext::{Bytes, NoMemory};
use std::alloc::Global;
use zmtp_wire::{Messages, Parts};

/// Parts end in `|`, messages in `/`.
pub fn put_joined(messages: &Messages, out: &mut Bytes) -> Result<(), NoMemory> {
    for message in messages.as_slice() {
        for part in message.as_slice() {
            out.add(part.bytes())?;
            out.push(b'|')?;
        }
        out.push(b'/')?;
    }
    Ok(())
}

/// A message of one part.
pub fn single(alloc: Global, part: &[u8]) -> Result<Parts, NoMemory>
    ensures { IfOk result (λ m. m ≡ part.now ∷ []) }
{
    let mut parts = Parts::new(alloc);
    parts.push(Bytes::of(alloc, part)?)?;
    Ok(parts)
}
