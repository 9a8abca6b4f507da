//! What stands in front of a slice, read by whole things: the greeting's 64 octets, READY, and
//! then units, each a flag octet, a size and a body. `at` is the slice's place in the stream.
ghost use Rattle.std.specs.Prelude.{◌≡◌, ◌<◌, ◌≤◌, ℕ, List, [], ◌∷◌, ◌++◌, ◌&&◌, nat_eq, length};
ghost use Rattle.std.specs.Prelude.{take, drop, IfOk, IfErr, IfSome, IfNone};
ghost use Rattle.zmtp_wire.specs.declared.role.Role.{Role};
ghost use Rattle.zmtp_wire.specs.Frame.{is_more, size_len, size_of};
ghost use Rattle.zmtp_wire.specs.Front.{Takes, Fails, begins_error, room_beside};
ghost use Rattle.zmtp_wire.specs.Greeting.{speaks};
ghost use Rattle.zmtp_wire.specs.Stream.{Item, nothing, greeted, shaken, item_of, open_after};
ghost use Rattle.zmtp_wire.specs.Stream.{IsPart};

use crate::cause::Cause;
use crate::fault::WireFault;
use crate::flag::{is_allowed, is_command, is_more, size_len, size_of};
use crate::frame::parts_len;
use crate::handshake::handshake_cause;
use crate::opening::{greeting_cause, passes, speaks};
use crate::parts::Parts;
use crate::role::Role;
use crate::unit::MOST_OCTETS;

/// A whole unit, and the octets that follow it.
#[derive(Clone, Copy, Debug, Drop)]
pub struct Unit<'a> {
    pub flag: u8,
    pub body: &'a [u8],
    pub after: &'a [u8],
}

/// Whether the sender of the greeting in front speaks 3.1, and what follows it; `None` where it is
/// unfinished.
pub fn read_greeting(bytes: &[u8]) -> Result<Option<(bool, &[u8])>, WireFault>
    ensures part { IfOk result (λ o.
        IfNone o ((r : Role) → IsPart r nothing bytes.now)) }
    ensures whole { IfOk result (λ o. IfSome o (λ x. (r : Role) → (g : List ℕ) ×
        Takes r nothing (greeted g) bytes.now x.1.now × (x.0 ≡ speaks g))) }
    ensures broken { IfErr result (λ e. (r : Role) → Fails r nothing 0 bytes.now e) }
{
    let mut i = 0;
    let mut rest = bytes;
    while i < 64 {
        let Some((octet, after)) = rest.split_first() else {
            return Ok(None);
        };
        if !passes(i, *octet) {
            return Err(greeting_cause(i).at(i as u64));
        }
        i += 1;
        rest = after;
    }
    let (greeting, _) = bytes.split_at(64);
    Ok(Some((speaks(greeting), rest)))
}

/// What follows the READY in front; `None` where it is unfinished.
pub fn read_ready(role: Role, at: u64, bytes: &[u8]) -> Result<Option<&[u8]>, WireFault>
    ensures part { (g : List ℕ) → IfOk result (λ o.
        IfNone o (IsPart role (greeted g) bytes.now)) }
    ensures whole { (g : List ℕ) → IfOk result (λ o.
        IfSome o (λ x. Takes role (greeted g) (shaken g []) bytes.now x.now)) }
    ensures broken { (g : List ℕ) → IfErr result (λ e. Fails role (greeted g) at bytes.now e) }
{
    let Some((flag, head)) = bytes.split_first() else {
        return Ok(None);
    };
    if !is_allowed(*flag) {
        return Err(Cause::Flags.at(at));
    }
    if !is_command(*flag) {
        return Err(Cause::Command.at(at));
    }
    let Some((size, rest)) = read_size(*flag, head) else {
        return Ok(None);
    };
    let last = at.saturating_add(size_len(*flag) as u64);
    if MOST_OCTETS < size {
        return Err(Cause::TooLong(size).at(last));
    }
    if (rest.len() as u64) < size {
        return Ok(None);
    }
    let (body, after) = rest.split_at(size as usize);
    match handshake_cause(role, body) {
        None => Ok(Some(after)),
        Some(cause) => Err(cause.at(last.saturating_add(size))),
    }
}

/// The unit in front, where these frames stand open; `None` where it is unfinished.
pub fn read_unit<'a>(
    at: u64,
    frames: &Parts,
    bytes: &'a [u8],
) -> Result<Option<Unit<'a>>, WireFault>
    ensures part { (r : Role) (g : List ℕ) (items : List Item) →
        open_after [] items ≡ frames.now →
        IfOk result (λ o. IfNone o (IsPart r (shaken g items) bytes.now)) }
    ensures whole { (r : Role) (g : List ℕ) (items : List Item) →
        open_after [] items ≡ frames.now → IfOk result (λ o. IfSome o (λ x.
        Takes r (shaken g items) (shaken g (items ++ item_of x.flag x.body.now ∷ []))
        bytes.now x.after.now)) }
    ensures broken { (r : Role) (g : List ℕ) (items : List Item) →
        open_after [] items ≡ frames.now →
        IfErr result (λ e. Fails r (shaken g items) at bytes.now e) }
{
    let Some((flag, head)) = bytes.split_first() else {
        return Ok(None);
    };
    if !is_allowed(*flag) {
        return Err(Cause::Flags.at(at));
    }
    if is_one_too_many(frames, *flag) {
        return Err(Cause::TooMany.at(at));
    }
    let Some((size, rest)) = read_size(*flag, head) else {
        return Ok(None);
    };
    let last = at.saturating_add(size_len(*flag) as u64);
    if room_beside(frames, *flag) < size {
        return Err(Cause::TooLong(size).at(last));
    }
    if begins_error(*flag, size, rest) {
        return Err(Cause::PeerError.at(last.saturating_add(6)));
    }
    if (rest.len() as u64) < size {
        return Ok(None);
    }
    let (body, after) = rest.split_at(size as usize);
    Ok(Some(Unit {
        flag: *flag,
        body,
        after,
    }))
}

/// The size in front, and what follows it; `None` where it is unfinished.
fn read_size(flag: u8, octets: &[u8]) -> Option<(u64, &[u8])>
    ensures part { IfNone result (length octets.now < size_len flag) }
    ensures whole { IfSome result (λ x. (size_len flag ≤ length octets.now) ×
        (x.0 ≡ size_of (take (size_len flag) octets.now)) ×
        (x.1.now ≡ drop (size_len flag) octets.now)) }
{
    let len = size_len(flag);
    if octets.len() < len {
        return None;
    }
    let (front, rest) = octets.split_at(len);
    Some((size_of(front), rest))
}

/// Whether the flag says MORE where 63 frames stand open.
fn is_one_too_many(frames: &Parts, flag: u8) -> bool
    ensures { result ≡ (is_more flag && nat_eq (length frames.now) 63) }
{
    is_more(flag) && frames.len() == 63
}

/// How many octets a unit with this flag may have beside the frames that stand open.
fn room_beside(frames: &Parts, flag: u8) -> u64
    ensures { result ≡ room_beside frames.now flag }
{
    if is_command(flag) {
        MOST_OCTETS
    } else {
        MOST_OCTETS.saturating_sub(parts_len(frames))
    }
}

/// Whether the octets begin the body of an ERROR of this size.
fn begins_error(flag: u8, size: u64, rest: &[u8]) -> bool
    ensures { result ≡ begins_error flag size rest.now }
{
    is_command(flag) && 6 <= size && rest.starts_with(b"\x05ERROR")
}
