//! Signed requests, and lines of what comes.
use jmsg::{Decoded, Header, Message, decode, encode};
use jtext::{Fields, Json, NoMemory, Text, read, write_compact};
use std::alloc::Global;
use zmtp_wire::Parts;

/// The key under which both ends sign.
pub(crate) const KEY: &str = "k";

/// The parts of a request, `ID TYPE CONTENT`, that is signed under this key.
pub(crate) fn signed(alloc: Global, key: &str, request: &str) -> Result<Parts, NoMemory> {
    let (id, rest) = request.split_once(' ').unwrap_or((request, ""));
    let (kind, content) = rest.split_once(' ').unwrap_or((rest, ""));
    let message = Message {
        header: header(alloc, id, kind)?,
        parent_id: None,
        parent: Json::Obj(Fields::new(alloc)),
        metadata: Json::Obj(Fields::new(alloc)),
        content: read(alloc, content.as_bytes(), 100).unwrap_or(Json::Null),
        buffers: Parts::new(alloc),
    };
    encode(alloc, key.as_bytes(), &message)
}

fn header(alloc: Global, id: &str, kind: &str) -> Result<Header, NoMemory> {
    Ok(Header {
        msg_id: Text::of(alloc, id)?,
        session: Text::new(alloc),
        username: Text::new(alloc),
        date: None,
        msg_type: Text::of(alloc, kind)?,
        version: Text::of(alloc, "5.3")?,
    })
}

/// Adds a line with the type of a message, the id of its request and, in full, its content.
pub(crate) fn put_line(
    alloc: Global,
    parts: &Parts,
    is_full: bool,
    out: &mut String,
) -> Result<(), NoMemory> {
    let found = decode(alloc, KEY.as_bytes(), parts)?;
    let end = put_decoded(alloc, &found, is_full, out);
    drop(found);
    end
}

fn put_decoded(
    alloc: Global,
    found: &Decoded,
    is_full: bool,
    out: &mut String,
) -> Result<(), NoMemory> {
    match found {
        Decoded::Good(message) => put_message(alloc, message, is_full, out)?,
        _ => put_word(out, "unsigned")?,
    }
    out.push_str("\n")?;
    Ok(())
}

fn put_message(
    alloc: Global,
    message: &Message,
    is_full: bool,
    out: &mut String,
) -> Result<(), NoMemory> {
    put_word(out, message.header.msg_type.as_str())?;
    if let Some(id) = &message.parent_id {
        put_word(out, id.as_str())?;
    }
    if is_full {
        put_tree(alloc, &message.content, out)?;
    }
    Ok(())
}

fn put_tree(alloc: Global, tree: &Json, out: &mut String) -> Result<(), NoMemory> {
    let text = write_compact(alloc, tree)?;
    put_word(out, str::from_utf8(text.bytes()).unwrap_or("no text"))
}

fn put_word(out: &mut String, word: &str) -> Result<(), NoMemory> {
    out.push_str(" ")?;
    out.push_str(word)?;
    Ok(())
}
