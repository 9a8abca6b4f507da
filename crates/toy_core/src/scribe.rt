//! Messages, numbered, signed and framed.
ghost use Rattle.std.specs.Prelude.{◌≡◌, ◌++◌, ◌∷◌, [], IfOk, OnOk, IsTrue, ◌↔◌};
ghost use Rattle.jmsg.specs.Encoded as encoding;
ghost use Rattle.toy_core.specs.Sending as sending;

use crate::act::{Act, Acts};
use crate::appending::append;
use crate::note::{Note, Notes, Saying};
use crate::roles::role_on;
use jmsg::{Header, Message, encode};
use jtext::{Bytes, Fields, Json, NoMemory, Text, copy, text_at};
use std::alloc::Global;
use world::Chan;
use zmtp_peer::{Peer, is_body};
use zmtp_wire::Parts;

/// Appends what is done for notes to the request with this header, whose messages are numbered from
/// `number` on and signed under the key.
pub(crate) fn write(
    alloc: Global,
    key: &Text,
    parent: &Json,
    notes: Notes,
    number: &mut u64,
    out: &mut Acts,
) -> Result<(), NoMemory>
    ensures acts { OnOk result (out.new ≡
        out.old ++ sending.acts_of key.now parent.now number.old notes) }
    ensures number { OnOk result (number.new ≡ sending.number_after_all number.old notes) }
{
    for note in notes.into_vec() {
        write_one(alloc, key, parent, note, number, out)?;
    }
    Ok(())
}

/// Appends what is done for a note.
fn write_one(
    alloc: Global,
    key: &Text,
    parent: &Json,
    note: Note,
    number: &mut u64,
    out: &mut Acts,
) -> Result<(), NoMemory>
    ensures act { OnOk result (out.new ≡
        out.old ++ sending.act_of key.now parent.now number.old note ∷ []) }
    ensures number { OnOk result (number.new ≡ sending.number_after number.old note) }
{
    match note {
        Note::Say { chan, saying } => {
            let octets = octets(alloc, key, chan, parent, *number, saying)?;
            out.push(Act::Send { chan, octets })?;
            *number = number.saturating_add(1);
            Ok(())
        }
        Note::Rest { ms } => out.push(Act::Pause { ms }),
        Note::Stop { status } => out.push(Act::End { status }),
    }
}

/// The octets of message number `number`.
fn octets(
    alloc: Global,
    key: &Text,
    chan: Chan,
    parent: &Json,
    number: u64,
    saying: Saying,
) -> Result<Bytes, NoMemory>
    ensures { IfOk result (λ octets. octets ≡ sending.body_octets chan
        (sending.frames key.now chan parent.now number saying)) }
{
    let mut frames = topic_frames(alloc, chan)?;
    put_message(
        alloc,
        key,
        message_to(alloc, parent, number, saying)?,
        &mut frames,
    )?;
    body_octets(alloc, chan, &frames)
}

/// Appends the frames of a message, signed under the key.
fn put_message(
    alloc: Global,
    key: &Text,
    message: Message,
    frames: &mut Parts,
) -> Result<(), NoMemory>
    ensures { OnOk result (frames.new ≡ frames.old ++ encoding.encode key.now message) }
{
    let encoded = encode(alloc, key.bytes(), &message);
    // By a call: at each end of the scope its many parts would be dropped one by one.
    drop(message);
    append(frames, encoded?)
}

/// A body as it goes out on a channel. One of no parts, of more than 63, or of more than 64 MiB isn't
/// made: its growth counts as refused.
pub(crate) fn body_octets(alloc: Global, chan: Chan, body: &Parts) -> Result<Bytes, NoMemory>
    ensures { IfOk result (λ octets. octets ≡ sending.body_octets chan body.now) }
{
    if !is_body(body) {
        return Err(NoMemory);
    }
    let mut octets = Bytes::new(alloc);
    Peer::new(alloc, role_on(chan)).message_bytes(body, &mut octets)?;
    Ok(octets)
}

/// Message number `number`, to the request with this header.
fn message_to(
    alloc: Global,
    parent: &Json,
    number: u64,
    saying: Saying,
) -> Result<Message, NoMemory>
    ensures { IfOk result (λ m. m ≡ sending.message_to parent.now number saying) }
{
    let (kind, content) = saying;
    Ok(Message {
        header: header(alloc, number, kind)?,
        parent_id: text_at(alloc, parent, "msg_id")?,
        parent: copy(alloc, parent)?,
        metadata: Json::Obj(Fields::new(alloc)),
        content,
        buffers: Parts::new(alloc),
    })
}

fn header(alloc: Global, number: u64, kind: Text) -> Result<Header, NoMemory>
    ensures { IfOk result (λ h. h ≡ sending.header number kind) }
{
    let msg_id = format!(in alloc; "toy_{number}")?;
    Ok(Header {
        msg_id: Text::of_string(msg_id),
        session: Text::of(alloc, "toy")?,
        username: Text::of(alloc, "toy")?,
        date: Some(Text::of(alloc, "2000-01-01T00:00:00.000Z")?),
        msg_type: kind,
        version: Text::of(alloc, "5.3")?,
    })
}

/// The topic, where the channel has topics.
fn topic_frames(alloc: Global, chan: Chan) -> Result<Parts, NoMemory>
    ensures { IfOk result (λ frames. frames ≡ sending.topic_frames chan) }
{
    match chan {
        Chan::Iopub => {
            let topic = Bytes::of(alloc, b"toy")?;
            Ok(Parts::of_vec(vec![in alloc; topic]?))
        }
        _ => Ok(Parts::new(alloc)),
    }
}
