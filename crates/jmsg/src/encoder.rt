//! From a message to parts.
ghost use Rattle.std.specs.Prelude.{◌≡◌, ℕ, List, IfOk};
ghost use Rattle.jsign.specs.Signer.{SignsUnder};
ghost use Rattle.jmsg.specs.Encoded.{encode};

use crate::Message;
use crate::frames::{DELIMITER, append_copies};
use jsign::Signer;
use jtext::{Bytes, NoMemory, write_compact};
use std::alloc::Global;
use zmtp_wire::Parts;

/// The parts of the message, signed under the key: no routing frames, dictionaries as compact text.
pub fn encode(alloc: Global, key: &[u8], m: &Message) -> Result<Parts, NoMemory>
    ensures { IfOk result (λ parts. parts ≡ encode key.now m.now) }
{
    encode_under(alloc, &Signer::new(key), m)
}

/// Encodes as `encode` does under the signer's key, which isn't hashed again.
pub fn encode_under(alloc: Global, signer: &Signer, m: &Message) -> Result<Parts, NoMemory>
    ensures { (key : List ℕ) → SignsUnder signer.now key →
        IfOk result (λ parts. parts ≡ encode key m.now) }
{
    let header = write_compact(alloc, &m.header.tree(alloc)?)?;
    let parent = write_compact(alloc, &m.parent)?;
    let metadata = write_compact(alloc, &m.metadata)?;
    let content = write_compact(alloc, &m.content)?;
    let signature = signer.sign(
        header.bytes(),
        parent.bytes(),
        metadata.bytes(),
        content.bytes(),
    );
    let mut parts = Parts::new(alloc);
    parts.push(Bytes::of(alloc, DELIMITER)?)?;
    parts.push(Bytes::of(alloc, &signature)?)?;
    parts.push(header)?;
    parts.push(parent)?;
    parts.push(metadata)?;
    parts.push(content)?;
    append_copies(alloc, &mut parts, m.buffers.as_slice())?;
    Ok(parts)
}
