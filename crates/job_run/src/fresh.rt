//! The signed messages among the bodies that came on a channel.
ghost use Rattle.std.specs.Prelude.{◌≡◌, ◌∷◌, ◌++◌, [], ℕ, List, IfOk, IfSome, OnOk};
ghost use Rattle.jsign.specs.Signer.{SignsUnder};
ghost use Rattle.run_journal.specs.Codec.{Arrival};
ghost use Rattle.job_journal.specs.Seen.{HasHeard, and_heard};
ghost use Rattle.job_run.specs.Heard.{AreContents, HearsAll, HearsOf, IsContent, arrivals_of};

use jmsg::laws::decoded_is_signed;
use jmsg::{Decoded, Message, decode_under, signature};
use job_journal::laws::heard::{bodies_are_heard, signatures_are_frames};
use jsign::laws::signature_is_long;
use jsign::{Seen, Signer};
use jtext::{List as Messages, NoMemory};
use std::alloc::Global;
use zmtp_wire::{Messages as Bodies, Parts};

/// The signed messages of these bodies, in their order, none whose signature is among those that
/// were seen of late on their channel. They are seen from here on.
pub(crate) fn fresh_messages(
    alloc: Global,
    signer: &Signer,
    seen: &mut Seen,
    bodies: &Bodies,
) -> Result<Messages<Message>, NoMemory>
    ensures heard { (key : List ℕ) → SignsUnder signer.now key →
        IfOk result (HearsAll key bodies.now seen.old seen.new) }
    ensures contents { (key : List ℕ) → SignsUnder signer.now key → IfOk result AreContents }
{
    let mut messages = Messages::new(alloc);
    for body in bodies.as_slice() {
        let heard = fresh_message(alloc, signer, seen, body)?;
        keep_heard(&mut messages, heard)?;
    }
    Ok(messages)
}

// With one more message, where one is heard.
fn keep_heard(messages: &mut Messages<Message>, heard: Option<Message>) -> Result<(), NoMemory>
    ensures arrivals { OnOk result
        (arrivals_of messages.new ≡ and_heard (arrivals_of messages.old) heard) }
    ensures contents { OnOk result (IfSome heard (λ m. IsContent m.content) →
        AreContents messages.old → AreContents messages.new) }
{
    match heard {
        Some(message) => messages.push(message),
        None => Ok(()),
    }
}

/// The signed message of these parts, unless its signature is among those that were seen of late on
/// its channel. It is seen from here on.
pub(crate) fn fresh_message(
    alloc: Global,
    signer: &Signer,
    seen: &mut Seen,
    parts: &Parts,
) -> Result<Option<Message>, NoMemory>
    ensures heard { (key : List ℕ) → SignsUnder signer.now key →
        IfOk result (HearsOf key parts.now seen.old seen.new) }
    ensures next { (key : List ℕ) → SignsUnder signer.now key →
        (before done : List (List (List ℕ))) (messages : List Arrival) →
        HasHeard key before done seen.old messages → IfOk result (λ m.
        HasHeard key before (done ++ parts.now ∷ []) seen.new (and_heard messages m)) }
{
    signature_is_long();
    decoded_is_signed();
    bodies_are_heard();
    signatures_are_frames();
    let decoded = decode_under(alloc, signer, parts)?;
    let Decoded::Good(message) = decoded else {
        return Ok(None);
    };
    let Some(signature) = signature(parts) else {
        return Ok(None);
    };
    let is_fresh = seen.fresh(&signature)?;
    if is_fresh {
        Ok(Some(message))
    } else {
        // By a call, as where a job ends.
        drop(message);
        Ok(None)
    }
}
