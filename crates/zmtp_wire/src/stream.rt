//! The plain reader of a whole stream, beside the decoder: it has all octets before it, and keeps
//! from unit to unit only the frames of the unfinished message.
ghost use Rattle.std.specs.Prelude.{◌≡◌, ◌≢◌, ◌++◌, ◌∷◌, [], ◌↔◌, IfOk, IfErr, IsTrue, OnOk};
ghost use Rattle.zmtp_wire.specs.declared.fault.WireFault.TheVariants.{NoMemory as Starved};
ghost use Rattle.zmtp_wire.specs.Stream.{Scans, BreaksAs, IsShaken, item_of, open_after};
ghost use Rattle.zmtp_wire.specs.Stream.{messages_of};

use crate::command::put_meaning;
use crate::fault::WireFault;
use crate::flag::{is_command, is_more};
use crate::front::{Unit, read_greeting, read_ready, read_unit};
use crate::parts::{Messages, Parts};
use crate::role::Role;
use jtext::{Bytes, NoMemory};
use std::alloc::Global;
use std::mem;

/// What a stream gives.
#[derive(Debug, Drop)]
pub struct Scan {
    pub messages: Messages,
    /// How many octets follow the last whole unit.
    pub rest: u64,
    /// Whether READY was read.
    pub shaken: bool,
}

/// Reads all octets of a peer's stream at once, as a socket of this role.
pub fn whole(alloc: Global, role: Role, bytes: &[u8]) -> Result<Scan, WireFault>
    // What is read is a stream.
    ensures stream { IfOk result (λ s. Scans bytes.now role s.messages s.rest) }
    ensures shaken { IfOk result (λ s. IsTrue s.shaken ↔ IsShaken role bytes.now) }

    // Where it isn't, the fault is the one that breaks it.
    ensures broken { IfErr result (λ e. e ≢ Starved → BreaksAs bytes.now role e) }
{
    let mut messages = Messages::new(alloc);
    let Some((newer, first)) = read_greeting(bytes)? else {
        return Ok(Scan {
            messages,
            rest: bytes.len() as u64,
            shaken: false,
        });
    };
    let Some(units) = read_ready(role, 64, first)? else {
        return Ok(Scan {
            messages,
            rest: first.len() as u64,
            shaken: false,
        });
    };
    let mut frames = Parts::new(alloc);
    let mut rest = units;
    while let Some(unit) = read_unit((bytes.len() - rest.len()) as u64, &frames, rest)? {
        take_unit(alloc, role, newer, unit, &mut frames, &mut messages)?;
        rest = unit.after;
    }
    Ok(Scan {
        messages,
        rest: rest.len() as u64,
        shaken: true,
    })
}

/// Appends the messages that end in a unit, and keeps the frames that stand open after it.
fn take_unit(
    alloc: Global,
    role: Role,
    newer: bool,
    unit: Unit,
    frames: &mut Parts,
    out: &mut Messages,
) -> Result<(), NoMemory>
    ensures frames { OnOk result
        (frames.new ≡ open_after frames.old (item_of unit.entry.flag unit.entry.body.now ∷ [])) }
    ensures messages { OnOk result (out.new ≡ out.old ++
        messages_of role newer frames.old (item_of unit.entry.flag unit.entry.body.now ∷ [])) }
{
    if is_command(unit.flag) {
        return put_meaning(alloc, role, newer, unit.body, out);
    }
    frames.push(Bytes::of(alloc, unit.body)?)?;
    if !is_more(unit.flag) {
        out.push(mem::replace(frames, Parts::new(alloc)))?;
    }
    Ok(())
}
