//! The envelope of REQ and REP: an empty frame before the body. The other kinds have none; ROUTER
//! serves one connection here and shows no identity.
ghost use Rattle.std.specs.Prelude.{◌≡◌, ◌↔◌, ◌∷◌, [], IfSome, IfNone, IsTrue};
ghost use Rattle.zmtp_peer.specs.Envelope.{has_envelope, starts_empty, body_in};
ghost use Rattle.zmtp_peer.specs.Sending.{IsBody};

use zmtp_wire::{Parts, Role, parts_len};

/// The most octets that the parts of a message have together.
const MOST_OCTETS: u64 = 67_108_864;

/// Whether the role puts an empty frame before the body.
pub fn has_envelope(role: Role) -> bool
    ensures { result ≡ has_envelope role }
{
    match role {
        Role::Req => true,
        Role::Rep => true,
        _ => false,
    }
}

/// Whether the parts may be sent as a message: 1 to 63 of them, with at most 64 MiB together.
pub fn is_body(parts: &Parts) -> bool
    ensures { IsTrue result ↔ IsBody parts.now }
{
    0 < parts.len() && parts.len() <= 63 && parts_len(parts) <= MOST_OCTETS
}

/// The body of a message that the role reads. `None` where the message is passed over: its first
/// frame isn't empty.
#[tactic(auto, using(crate::proofs::BodyLemmas::body_laws))]
pub fn body_in(role: Role, message: Parts) -> Option<Parts>
    ensures some { IfSome result (λ body. body_in role message ≡ body ∷ []) }
    ensures none { IfNone result (body_in role message ≡ []) }
{
    if !has_envelope(role) {
        return Some(message);
    }
    if !starts_empty(&message) {
        return None;
    }
    let mut body = message;
    body.take(0);
    Some(body)
}

/// Whether the first frame is there and empty.
fn starts_empty(message: &Parts) -> bool
    ensures { result ≡ starts_empty message.now }
{
    match message.as_slice() {
        [first, ..] => first.len() == 0,
        [] => false,
    }
}
