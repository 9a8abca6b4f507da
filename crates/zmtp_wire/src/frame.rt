//! Frames, messages and commands, written in their shortest form.
ghost use Rattle.std.specs.Prelude.{◌≡◌, ◌++◌, ◌<◌, ◌≤◌, ◌↔◌, length, OnOk, OnErr, IsTrue, sum_by};
ghost use Rattle.zmtp_wire.specs.Fault.{clip};
ghost use Rattle.zmtp_wire.specs.Frame.{MOST};
ghost use Rattle.zmtp_wire.specs.Writing.{IsMessage, unit_octets, frame_octets, message_octets};
ghost use Rattle.zmtp_wire.specs.Writing.{command_octets};

use crate::parts::Parts;
use crate::unit::MOST_OCTETS;
use jtext::{Bytes, NoMemory};
use std::alloc::Global;

/// How many octets the parts have together; it stands still at `u64::MAX`.
pub fn parts_len(parts: &Parts) -> u64
    ensures { result ≡ clip (sum_by length parts.now) }
{
    let mut len: u64 = 0;
    for part in parts.as_slice() {
        len = len.saturating_add(part.len() as u64);
    }
    len
}

/// Whether the parts may be written as a message: 1 to 64 of them, with at most 64 MiB together.
pub fn is_message(parts: &Parts) -> bool
    ensures { IsTrue result ↔ IsMessage parts.now }
{
    0 < parts.len() && parts.len() <= 64 && parts_len(parts) <= MOST_OCTETS
}

/// Appends a message of 1 to 64 parts. Without memory nothing changes.
pub fn put_message(alloc: Global, parts: &Parts, out: &mut Bytes) -> Result<(), NoMemory>
    requires some { 0 < length parts.now }
    requires few { length parts.now ≤ 64 }
    requires small { sum_by length parts.now ≤ MOST }
    ensures ok { OnOk result (out.new ≡ out.old ++ message_octets parts.now) }
    ensures err { OnErr result (out.new ≡ out.old) }
{
    let mut octets = Bytes::new(alloc);
    let all = parts.as_slice();
    let mut left = all.len();
    for part in all {
        left -= 1;
        put_frame(0 < left, part.bytes(), &mut octets)?;
    }
    out.add(octets.bytes())
}

/// Appends a command with this body, a name and data of at most 64 MiB. Without memory nothing
/// changes.
pub fn put_command(alloc: Global, body: &[u8], out: &mut Bytes) -> Result<(), NoMemory>
    requires { length body.now ≤ MOST }
    ensures ok { OnOk result (out.new ≡ out.old ++ command_octets body.now) }
    ensures err { OnErr result (out.new ≡ out.old) }
{
    let mut octets = Bytes::new(alloc);
    put_unit(4, 6, body, &mut octets)?;
    out.add(octets.bytes())
}

/// Appends one frame.
fn put_frame(more: bool, body: &[u8], out: &mut Bytes) -> Result<(), NoMemory>
    ensures { OnOk result (out.new ≡ out.old ++ frame_octets more body.now) }
{
    if more {
        put_unit(1, 3, body, out)
    } else {
        put_unit(0, 2, body, out)
    }
}

/// Appends one unit in its shortest form: the first flag goes with a size of one octet, the second
/// with LONG.
#[tactic(auto, unfolding(crate::specs::Writing::unit_octets))]
fn put_unit(short: u8, long: u8, body: &[u8], out: &mut Bytes) -> Result<(), NoMemory>
    ensures { OnOk result (out.new ≡ out.old ++ unit_octets short long body.now) }
{
    if body.len() < 256 {
        out.push(short)?;
        out.push(body.len() as u8)?;
        return out.add(body);
    }
    out.push(long)?;
    out.add(&(body.len() as u64).to_be_bytes())?;
    out.add(body)
}
