//! The octets of a message on the wire (RFC 23): its frames, and changes of it.
use jsign::sign;
use jtext::{Bytes, List, NoMemory};
use std::alloc::Global;

/// Where the body of a frame stands in the octets of a message.
#[derive(Clone, Copy, Drop)]
pub(crate) struct Span {
    from: usize,
    to: usize,
}

/// The octets from this place to before that one, and none where these aren't there.
pub(crate) fn part(octets: &[u8], from: usize, to: usize) -> &[u8] {
    match octets.get(from..to) {
        Some(part) => part,
        None => &[],
    }
}

/// The place where this text first stands.
pub(crate) fn place_of(octets: &[u8], text: &str) -> Option<usize> {
    for place in 0..octets.len() {
        if let Some(rest) = octets.get(place..) {
            if rest.starts_with(text.as_bytes()) {
                return Some(place);
            }
        }
    }
    None
}

/// Whether this text stands there.
pub(crate) fn holds(octets: &[u8], text: &str) -> bool {
    place_of(octets, text).is_some()
}

// The length of the head of the frame that begins here, and of its body.
fn sizes(octets: &[u8]) -> (usize, usize) {
    let Some(flag) = octets.first() else {
        return (0, 0);
    };
    if flag & 2 == 0 {
        let size = number(part(octets, 1, 2));
        (2, size)
    } else {
        let size = number(part(octets, 1, 9));
        (9, size)
    }
}

// The number that these octets are, the high ones first.
fn number(octets: &[u8]) -> usize {
    let mut number: usize = 0;
    for octet in octets {
        number = number.saturating_mul(256).saturating_add(*octet as usize);
    }
    number
}

/// The frames of the message that begins here.
pub(crate) fn frames(alloc: Global, octets: &[u8]) -> Result<List<Span>, NoMemory> {
    let mut frames = List::new(alloc);
    let mut at: usize = 0;
    for _ in 0..64 {
        let rest = part(octets, at, octets.len());
        let (head, body) = sizes(rest);
        let from = at.saturating_add(head);
        let to = from.saturating_add(body);
        frames.push(Span { from, to })?;
        at = to;
        if !has_more(rest) {
            return Ok(frames);
        }
    }
    Ok(frames)
}

// Whether another frame of the message follows the one that begins here.
fn has_more(octets: &[u8]) -> bool {
    match octets.first() {
        Some(flag) => flag & 1 == 1,
        None => false,
    }
}

/// The length of the message that begins here.
pub(crate) fn message_len(alloc: Global, octets: &[u8]) -> Result<usize, NoMemory> {
    let mut len = 0;
    for frame in frames(alloc, octets)?.iter() {
        len = frame.to;
    }
    Ok(len)
}

// The octets with these ones in place of a frame's body, of as many octets.
fn with_body(alloc: Global, octets: &[u8], frame: Span, body: &[u8]) -> Result<Bytes, NoMemory> {
    let mut changed = Bytes::of(alloc, part(octets, 0, frame.from))?;
    changed.add(body)?;
    changed.add(part(octets, frame.to, octets.len()))?;
    Ok(changed)
}

/// A published message with another last digit of its signature.
pub(crate) fn spoil(alloc: Global, octets: &[u8]) -> Result<Bytes, NoMemory> {
    let frames = frames(alloc, octets)?;
    let Some(signature) = frames.get(2) else {
        return Bytes::of(alloc, octets);
    };
    let last = Span {
        from: signature.to.saturating_sub(1),
        to: signature.to,
    };
    let digit = if part(octets, last.from, last.to).starts_with(b"0") {
        b"1"
    } else {
        b"0"
    };
    with_body(alloc, octets, last, digit)
}

/// A message with this text in place of that one, of the same length, signed under the key.
pub(crate) fn swap(
    alloc: Global,
    key: &[u8],
    octets: &[u8],
    old: &str,
    new: &str,
) -> Result<Bytes, NoMemory> {
    let Some(from) = place_of(octets, old) else {
        return Bytes::of(alloc, octets);
    };
    let to = from.saturating_add(old.len());
    let changed = with_body(alloc, octets, Span { from, to }, new.as_bytes())?;
    sign_anew(alloc, key, changed.bytes())
}

// A message, signed under the key. A published one has its topic before the delimiter.
fn sign_anew(alloc: Global, key: &[u8], octets: &[u8]) -> Result<Bytes, NoMemory> {
    let frames = frames(alloc, octets)?;
    let (signature, dicts) = match frames.as_slice() {
        [_, signature, header, parent, metadata, content] => {
            (*signature, [*header, *parent, *metadata, *content])
        }
        [_, _, signature, header, parent, metadata, content, ..] => {
            (*signature, [*header, *parent, *metadata, *content])
        }
        _ => return Bytes::of(alloc, octets),
    };
    let [header, parent, metadata, content] = dicts;
    let digits = sign(
        key,
        part(octets, header.from, header.to),
        part(octets, parent.from, parent.to),
        part(octets, metadata.from, metadata.to),
        part(octets, content.from, content.to),
    );
    with_body(alloc, octets, signature, &digits)
}
