//! From parts to a message.
ghost use Rattle.std.specs.Prelude.{◌≡◌, ℕ, List, IfOk, IfSome, Some};
ghost use Rattle.jsign.specs.Signer.{SignsUnder};
ghost use Rattle.jmsg.specs.declared.decoded.Decoded as verdict;
ghost use Rattle.jmsg.specs.declared.message.Message as message;
ghost use Rattle.jmsg.specs.Signed.{Decodes, Give};

use crate::dictionaries::dictionary;
use crate::frames::{after_delimiter, append_copies};
use crate::{Decoded, Header, Message};
use jsign::Signer;
use jtext::{Bytes, NoMemory, text_at};
use std::alloc::Global;
use zmtp_wire::Parts;

/// The message that the parts are, where its signature holds under the key; else the first test
/// that failed, in the order delimiter, count, signature, JSON. `NoMemory` alone is free.
pub fn decode(alloc: Global, key: &[u8], parts: &Parts) -> Result<Decoded, NoMemory>
    // It is a signed message, or this test is the first that fails,
    ensures is { IfOk result (λ decoded. Decodes key.now parts.now decoded) }

    // and nothing else is true of these parts.
    ensures only { (decoded : verdict.Decoded) → Decodes key.now parts.now decoded →
        IfOk result (λ r. r ≡ decoded) }
{
    decode_under(alloc, &Signer::new(key), parts)
}

/// Decodes as `decode` does under the signer's key, which isn't hashed again.
pub fn decode_under(alloc: Global, signer: &Signer, parts: &Parts) -> Result<Decoded, NoMemory>
    ensures is { (key : List ℕ) → SignsUnder signer.now key →
        IfOk result (λ decoded. Decodes key parts.now decoded) }
    ensures only { (key : List ℕ) → SignsUnder signer.now key →
        (decoded : verdict.Decoded) → Decodes key parts.now decoded →
        IfOk result (λ r. r ≡ decoded) }
{
    let Some(after) = after_delimiter(parts.as_slice()) else {
        return Ok(Decoded::NoDelimiter);
    };
    let [signature, header, parent, metadata, content, buffers @ ..] = after else {
        return Ok(Decoded::Short);
    };
    let (header, parent) = (header.bytes(), parent.bytes());
    let (metadata, content) = (metadata.bytes(), content.bytes());
    let signed = signer.check(header, parent, metadata, content, signature.bytes());
    if !signed {
        return Ok(Decoded::Unsigned);
    }
    let given = message(alloc, header, parent, metadata, content, buffers)?;
    match given {
        Some(message) => Ok(Decoded::Good(message)),
        None => Ok(Decoded::NotJson),
    }
}

/// The message that the frames give.
fn message(
    alloc: Global,
    header: &[u8],
    parent: &[u8],
    metadata: &[u8],
    content: &[u8],
    buffers: &[Bytes],
) -> Result<Option<Message>, NoMemory>
    ensures some { IfOk result (λ r. IfSome r (λ m.
        Give header.now parent.now metadata.now content.now buffers.now m)) }
    ensures only { (m : message.Message) →
        Give header.now parent.now metadata.now content.now buffers.now m →
        IfOk result (λ r. r ≡ Some m) }
{
    let Some(named) = dictionary(alloc, header)? else {
        return Ok(None);
    };
    let Some(header) = Header::of(alloc, named) else {
        return Ok(None);
    };
    let Some(parent) = dictionary(alloc, parent)? else {
        return Ok(None);
    };
    let Some(metadata) = dictionary(alloc, metadata)? else {
        return Ok(None);
    };
    let Some(content) = dictionary(alloc, content)? else {
        return Ok(None);
    };
    let parent_id = text_at(alloc, &parent, "msg_id")?;
    let mut copies = Parts::new(alloc);
    append_copies(alloc, &mut copies, buffers)?;
    Ok(Some(Message {
        header,
        parent_id,
        parent,
        metadata,
        content,
        buffers: copies,
    }))
}
