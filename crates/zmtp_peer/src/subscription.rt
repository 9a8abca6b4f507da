//! The prefixes that a PUB keeps, each as often as it was subscribed to.
ghost use Rattle.std.specs.Prelude.{◌≡◌, ◌<◌, length, IfSome, IfNone, OnOk, OnErr, IsTrue, ◌↔◌};
ghost use Rattle.std.specs.List.{remove};
ghost use Rattle.zmtp_peer.specs.Subscription.{after_message, without, IsWanted};

use jtext::{Bytes, NoMemory};
use std::alloc::Global;
use zmtp_wire::Parts;

/// Takes a message of a subscriber: 01 and a prefix adds the prefix, 00 and a prefix takes one such
/// back.
pub fn take_message(alloc: Global, message: &Parts, prefixes: &mut Parts) -> Result<(), NoMemory>
    ensures ok { OnOk result (prefixes.new ≡ after_message prefixes.old message.now) }
    ensures err { OnErr result (prefixes.new ≡ prefixes.old) }
{
    let [part] = message.as_slice() else {
        return Ok(());
    };
    let Some((first, prefix)) = part.bytes().split_first() else {
        return Ok(());
    };
    if *first == 1 {
        prefixes.push(Bytes::of(alloc, prefix)?)?;
    } else if *first == 0 {
        take_back(prefix, prefixes);
    }
    Ok(())
}

/// Takes one such prefix back, where there is one.
fn take_back(prefix: &[u8], prefixes: &mut Parts)
    ensures { prefixes.new ≡ without prefix.now prefixes.old }
{
    if let Some(place) = place_of(prefix, prefixes) {
        prefixes.take(place);
    }
}

/// Where the first such prefix stands.
fn place_of(prefix: &[u8], prefixes: &Parts) -> Option<usize>
    ensures within { IfSome result (λ i. i < length prefixes.now) }
    ensures some { IfSome result (λ i. without prefix.now prefixes.now ≡ remove prefixes.now i) }
    ensures none { IfNone result (without prefix.now prefixes.now ≡ prefixes.now) }
{
    for (i, kept) in prefixes.as_slice().iter().enumerate() {
        if prefix == kept.bytes() {
            return Some(i);
        }
    }
    None
}

/// Whether a prefix begins the topic.
pub fn is_wanted(prefixes: &Parts, topic: &[u8]) -> bool
    ensures { IsTrue result ↔ IsWanted prefixes.now topic.now }
{
    for prefix in prefixes.as_slice() {
        if topic.starts_with(prefix.bytes()) {
            return true;
        }
    }
    false
}
