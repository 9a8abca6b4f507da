//! What a socket says of itself beside its messages: the subscription of SUB, and PONGs.
ghost use Rattle.std.specs.Prelude.{◌≡◌, ◌++◌, ◌≤◌, length, OnOk, OnErr};
ghost use Rattle.zmtp_wire.specs.Command.{AreShort};
ghost use Rattle.zmtp_peer.specs.Reply.{is_sub, subscription_octets, pong, pongs};

use jtext::{Bytes, NoMemory};
use std::alloc::Global;
use zmtp_wire::{Parts, Role, put_command};

/// Whether the role subscribes.
pub fn is_sub(role: Role) -> bool
    ensures { result ≡ is_sub role }
{
    match role {
        Role::Sub => true,
        _ => false,
    }
}

/// The subscription to everything, for a peer that speaks 3.1 and for an older one.
pub fn subscription_octets(newer: bool) -> &'static [u8]
    ensures { result.now ≡ subscription_octets newer }
{
    if newer {
        b"\x04\x0A\x09SUBSCRIBE"
    } else {
        b"\x00\x01\x01"
    }
}

/// Appends a subscription and a PONG for each context. Without memory nothing changes.
pub fn put_replies(
    alloc: Global,
    subscription: &[u8],
    contexts: &Parts,
    out: &mut Bytes,
) -> Result<(), NoMemory>
    requires { AreShort contexts.now }
    ensures ok { OnOk result (out.new ≡ out.old ++ (subscription.now ++ pongs contexts.now)) }
    ensures err { OnErr result (out.new ≡ out.old) }
{
    let mut octets = Bytes::of(alloc, subscription)?;
    for context in contexts.as_slice() {
        put_pong(alloc, context.bytes(), &mut octets)?;
    }
    out.add(octets.bytes())
}

/// Appends a PONG.
fn put_pong(alloc: Global, context: &[u8], out: &mut Bytes) -> Result<(), NoMemory>
    requires { length context.now ≤ 16 }
    ensures { OnOk result (out.new ≡ out.old ++ pong context.now) }
{
    let mut body = Bytes::of(alloc, b"\x04PONG")?;
    body.add(context)?;
    put_command(alloc, body.bytes(), out)
}
