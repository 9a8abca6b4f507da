//! READY, written and read: the first command on each side.
//!
//! The body is a name's length, the name, and properties: each a name's length, a name, the value's
//! length in four octets, a value. Read more strictly than the standard: of the allowed pairs of
//! types only those that we serve.
ghost use Rattle.std.specs.Prelude.{◌≡◌, ◌∷◌, ◌++◌, ◌<◌, ◌≤◌, drop, length, Some, None, IfSome};
ghost use Rattle.std.specs.Prelude.{IfNone, OnOk, OnErr};
ghost use Rattle.std.specs.Int.{w32, from_be_bytes};
ghost use Rattle.zmtp_wire.specs.Command.{is_peer, is_type_name};
ghost use Rattle.zmtp_wire.specs.Machine.{handshake_cause, ready_cause, properties, with_property};
ghost use Rattle.zmtp_wire.specs.Machine.{after_one};
ghost use Rattle.zmtp_wire.specs.Writing.{ready_octets};

use crate::cause::Cause;
use crate::role::Role;
use jtext::{Bytes, NoMemory};
use std::alloc::Global;

/// Appends READY of the role. Without memory nothing changes.
pub fn put_ready(_alloc: Global, role: Role, out: &mut Bytes) -> Result<(), NoMemory>
    ensures ok { OnOk result (out.new ≡ out.old ++ ready_octets role) }
    ensures err { OnErr result (out.new ≡ out.old) }
{
    out.add(ready_octets(role))
}

/// READY of the role.
fn ready_octets(role: Role) -> &'static [u8]
    ensures { result.now ≡ ready_octets role }
{
    match role {
        Role::Dealer => b"\x04\x1C\x05READY\x0BSocket-Type\x00\x00\x00\x06DEALER",
        Role::Sub => b"\x04\x19\x05READY\x0BSocket-Type\x00\x00\x00\x03SUB",
        Role::Req => b"\x04\x19\x05READY\x0BSocket-Type\x00\x00\x00\x03REQ",
        Role::Router => b"\x04\x1C\x05READY\x0BSocket-Type\x00\x00\x00\x06ROUTER",
        Role::Pub => b"\x04\x19\x05READY\x0BSocket-Type\x00\x00\x00\x03PUB",
        Role::Rep => b"\x04\x19\x05READY\x0BSocket-Type\x00\x00\x00\x03REP",
    }
}

/// What is wrong with the body of a peer's first command.
pub fn handshake_cause(role: Role, body: &[u8]) -> Option<Cause>
    ensures { result ≡ handshake_cause role body.now }
{
    if body.starts_with(b"\x05ERROR") {
        Some(Cause::PeerError)
    } else if body.starts_with(b"\x05READY") {
        ready_cause(role, &body[6..])
    } else {
        Some(Cause::Command)
    }
}

/// What is wrong with the properties of a READY.
#[tactic(auto, using(crate::proofs::ReadyLemmas::ready_laws))]
fn ready_cause(role: Role, octets: &[u8]) -> Option<Cause>
    ensures { result ≡ ready_cause role (properties octets.now) }
{
    let mut fits: Option<bool> = None;
    let mut rest = octets;
    while !rest.is_empty() {
        let Some((name, value, next)) = take_property(rest) else {
            return Some(Cause::Command);
        };
        fits = after_one(role, name, value, fits);
        rest = next;
    }
    match fits {
        Some(found) => {
            if found {
                return None;
            }
            Some(Cause::WrongPeer)
        }
        None => Some(Cause::WrongPeer),
    }
}

/// The name and the value of the property in front, and the octets after it.
fn take_property(octets: &[u8]) -> Option<(&[u8], &[u8], &[u8])>
    requires { 0 < length octets.now }
    ensures none { IfNone result (properties octets.now ≡ None) }
    ensures some { IfSome result (λ p.
        properties octets.now ≡ with_property (p.0.now, p.1.now) (properties p.2.now)) }
    ensures shorter { IfSome result (λ p. length p.2.now < length octets.now) }
{
    let (first, r) = octets.split_at(1);
    let n = first[0] as usize;
    if r.len() < n + 4 {
        return None;
    }
    let (name, after) = r.split_at(n);
    let (_, rest) = after.split_at(4);
    let len = len_of(after) as usize;
    if rest.len() < len {
        return None;
    }
    let (value, next) = rest.split_at(len);
    Some((name, value, next))
}

/// The number in the four octets in front.
fn len_of(octets: &[u8]) -> u32
    requires { 4 ≤ length octets.now }
    ensures { result ≡ from_be_bytes w32 octets.now }
{
    u32::from_be_bytes([octets[0], octets[1], octets[2], octets[3]])
}

/// Whether the peer fits, where this property comes too.
fn after_one(role: Role, name: &[u8], value: &[u8], fits: Option<bool>) -> Option<bool>
    ensures { result ≡ after_one role (name.now, value.now) fits }
{
    match fits {
        Some(found) => Some(found),
        None => {
            if is_type_name(name) {
                Some(is_peer(role, value))
            } else {
                None
            }
        }
    }
}

/// Whether this is `Socket-Type`, in any case.
fn is_type_name(name: &[u8]) -> bool
    ensures { result ≡ is_type_name name.now }
{
    name.eq_ignore_ascii_case(b"socket-type")
}

/// Whether the role may meet a peer of this type.
fn is_peer(role: Role, name: &[u8]) -> bool
    ensures { result ≡ is_peer role (Some name.now) }
{
    match role {
        Role::Dealer => name == b"ROUTER".as_slice(),
        Role::Sub => name == b"PUB".as_slice() || name == b"XPUB".as_slice(),
        Role::Req => name == b"REP".as_slice() || name == b"ROUTER".as_slice(),
        Role::Router => name == b"DEALER".as_slice() || name == b"REQ".as_slice(),
        Role::Pub => name == b"SUB".as_slice(),
        Role::Rep => name == b"REQ".as_slice(),
    }
}
