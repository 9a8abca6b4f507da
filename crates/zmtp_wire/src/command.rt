//! What a peer's commands mean after the handshake. All but SUBSCRIBE, CANCEL and PING of a peer
//! that speaks 3.1 are passed over. Read more loosely than the standard: a command may stand
//! between the frames of a message.
ghost use Rattle.std.specs.Prelude.{◌≡◌, [], ◌∷◌, ◌++◌, ◌≤◌, length, OnOk, OnErr, IsTrue};
ghost use Rattle.zmtp_wire.specs.Command.{command_messages, command_contexts, is_ping, is_pub};
ghost use Rattle.zmtp_wire.specs.Command.{is_subscribe, is_cancel, AreShort};

use crate::parts::{Messages, Parts};
use crate::role::Role;
use jtext::{Bytes, NoMemory};
use std::alloc::Global;

/// Appends the message that a command means to the role.
pub fn put_meaning(
    alloc: Global,
    role: Role,
    newer: bool,
    body: &[u8],
    out: &mut Messages,
) -> Result<(), NoMemory>
    ensures ok { OnOk result (out.new ≡ out.old ++ command_messages role newer body.now) }
    ensures err { OnErr result (out.new ≡ out.old) }
{
    if newer && is_pub(role) {
        if is_subscribe(body) {
            put_one(alloc, 1, &body[10..], out)?;
        } else if is_cancel(body) {
            put_one(alloc, 0, &body[7..], out)?;
        }
    }
    Ok(())
}

/// Appends the message of one frame with the octet and the prefix.
fn put_one(alloc: Global, first: u8, prefix: &[u8], out: &mut Messages) -> Result<(), NoMemory>
    ensures ok { OnOk result (out.new ≡ out.old ++ ((first ∷ prefix.now) ∷ []) ∷ []) }
    ensures err { OnErr result (out.new ≡ out.old) }
{
    let mut part = Bytes::new(alloc);
    part.push(first)?;
    part.add(prefix)?;
    let mut parts = Parts::new(alloc);
    parts.push(part)?;
    out.push(parts)?;
    Ok(())
}

/// Appends the context of a PING.
pub fn put_context(
    alloc: Global,
    newer: bool,
    body: &[u8],
    owed: &mut Parts,
) -> Result<(), NoMemory>
    ensures ok { OnOk result (owed.new ≡ owed.old ++ command_contexts newer body.now) }
    ensures short { AreShort owed.old → AreShort owed.new }
{
    if newer && is_ping(body) {
        owed.push(Bytes::of(alloc, &body[7..])?)?;
    }
    Ok(())
}

/// Whether the body is a PING.
fn is_ping(body: &[u8]) -> bool
    ensures is { result ≡ is_ping body.now }
    ensures len { IsTrue result → length body.now ≤ 23 }
{
    body.starts_with(b"\x04PING") && 7 <= body.len() && body.len() <= 23
}

/// Whether the body is a SUBSCRIBE.
#[tactic(auto, unfolding(crate::specs::Command::is_subscribe))]
fn is_subscribe(body: &[u8]) -> bool
    ensures is { result ≡ is_subscribe body.now }
    ensures len { IsTrue result → 10 ≤ length body.now }
{
    body.starts_with(b"\x09SUBSCRIBE")
}

/// Whether the body is a CANCEL.
#[tactic(auto, unfolding(crate::specs::Command::is_cancel))]
fn is_cancel(body: &[u8]) -> bool
    ensures is { result ≡ is_cancel body.now }
    ensures len { IsTrue result → 7 ≤ length body.now }
{
    body.starts_with(b"\x06CANCEL")
}

/// Whether the role takes subscriptions.
fn is_pub(role: Role) -> bool
    ensures { result ≡ is_pub role }
{
    match role {
        Role::Pub => true,
        _ => false,
    }
}
