//! The steps within a unit: flag octet, size, body.
ghost use Rattle.std.specs.Prelude.{◌≡◌, ◌++◌, IfOk, OnOk, OnErr};
ghost use Rattle.zmtp_wire.specs.Command.{AreShort};
ghost use Rattle.zmtp_wire.specs.Frame.{MOST};
ghost use Rattle.zmtp_wire.specs.Machine.{unit_step, flag_step, size_step, body_step, finish};
ghost use Rattle.zmtp_wire.specs.Machine.{room_in, room_left, is_error};

use crate::cause::Cause;
use crate::command::{put_context, put_meaning};
use crate::flag::{is_allowed, is_command, is_more, size_len, size_of};
use crate::handshake::handshake_cause;
use crate::parts::{Messages, Parts};
use crate::role::Role;
use crate::state::{Open, Phase, State};
use jtext::{Bytes, NoMemory};
use std::alloc::Global;

/// The most octets that the frames of a message have together, and a command has.
pub const MOST_OCTETS: u64 = 67_108_864;

/// What one more octet of a unit brings.
pub fn unit_step(
    alloc: Global,
    role: Role,
    at: u64,
    phase: Phase,
    so_far: Open,
    octet: u8,
    out: &mut Messages,
    owed: &mut Parts,
) -> Result<State, NoMemory>
    ensures state { IfOk result (λ s. s ≡ (unit_step role at phase so_far octet).state) }
    ensures messages { OnOk result
        (out.new ≡ out.old ++ (unit_step role at phase so_far octet).messages) }
    ensures owed { OnOk result
        (owed.new ≡ owed.old ++ (unit_step role at phase so_far octet).owed) }
    ensures short { AreShort owed.old → AreShort owed.new }
    ensures starved { OnErr result (out.new ≡ out.old) }
{
    match so_far {
        Open::Fresh => Ok(flag_step(alloc, at, phase, octet)),
        Open::Size(flag, mut octets) => {
            octets.push(octet)?;
            if octets.len() < size_len(flag) {
                return Ok(State::Units(phase, Open::Size(flag, octets)));
            }
            let size = size_of(octets.bytes());
            size_step(alloc, role, at, phase, flag, size, out, owed)
        }
        Open::Body(flag, size, mut body) => {
            body.push(octet)?;
            body_step(alloc, role, at, phase, flag, size, body, out, owed)
        }
    }
}

/// What a flag octet brings.
#[tactic(auto, unfolding(crate::specs::Machine::flag_step))]
fn flag_step(alloc: Global, at: u64, phase: Phase, flag: u8) -> State
    ensures { result ≡ flag_step at phase flag }
{
    if !is_allowed(flag) {
        return phase.failure(at, Cause::Flags);
    }
    match phase {
        Phase::Handshake(newer) => {
            if is_command(flag) {
                State::Units(Phase::Handshake(newer), Open::Size(flag, Bytes::new(alloc)))
            } else {
                Phase::Handshake(newer).failure(at, Cause::Command)
            }
        }
        Phase::Traffic(newer, frames) => {
            if is_more(flag) && frames.len() == 63 {
                Phase::Traffic(newer, frames).failure(at, Cause::TooMany)
            } else {
                State::Units(
                    Phase::Traffic(newer, frames),
                    Open::Size(flag, Bytes::new(alloc)),
                )
            }
        }
    }
}

/// What a whole size brings.
#[tactic(auto, unfolding(crate::specs::Machine::size_step))]
fn size_step(
    alloc: Global,
    role: Role,
    at: u64,
    phase: Phase,
    flag: u8,
    size: u64,
    out: &mut Messages,
    owed: &mut Parts,
) -> Result<State, NoMemory>
    ensures state { IfOk result (λ s. s ≡ (size_step role at phase flag size).state) }
    ensures messages { OnOk result
        (out.new ≡ out.old ++ (size_step role at phase flag size).messages) }
    ensures owed { OnOk result (owed.new ≡ owed.old ++ (size_step role at phase flag size).owed) }
    ensures short { AreShort owed.old → AreShort owed.new }
    ensures starved { OnErr result (out.new ≡ out.old) }
{
    if room_in(&phase, flag) < size {
        return Ok(phase.failure(at, Cause::TooLong(size)));
    }
    if size == 0 {
        return finish(alloc, role, at, phase, flag, Bytes::new(alloc), out, owed);
    }
    Ok(State::Units(phase, Open::Body(flag, size, Bytes::new(alloc))))
}

/// What one more octet of a body brings.
#[tactic(auto, unfolding(crate::specs::Machine::body_step))]
fn body_step(
    alloc: Global,
    role: Role,
    at: u64,
    phase: Phase,
    flag: u8,
    size: u64,
    body: Bytes,
    out: &mut Messages,
    owed: &mut Parts,
) -> Result<State, NoMemory>
    ensures state { IfOk result (λ s. s ≡ (body_step role at phase flag size body).state) }
    ensures messages { OnOk result
        (out.new ≡ out.old ++ (body_step role at phase flag size body).messages) }
    ensures owed { OnOk result
        (owed.new ≡ owed.old ++ (body_step role at phase flag size body).owed) }
    ensures short { AreShort owed.old → AreShort owed.new }
    ensures starved { OnErr result (out.new ≡ out.old) }
{
    if is_error(&phase, flag, body.bytes()) {
        return Ok(phase.failure(at, Cause::PeerError));
    }
    if (body.len() as u64) < size {
        return Ok(State::Units(phase, Open::Body(flag, size, body)));
    }
    finish(alloc, role, at, phase, flag, body, out, owed)
}

/// What a whole unit brings.
#[tactic(auto, unfolding(crate::specs::Machine::finish))]
fn finish(
    alloc: Global,
    role: Role,
    at: u64,
    phase: Phase,
    flag: u8,
    body: Bytes,
    out: &mut Messages,
    owed: &mut Parts,
) -> Result<State, NoMemory>
    ensures state { IfOk result (λ s. s ≡ (finish role at phase flag body).state) }
    ensures messages { OnOk result
        (out.new ≡ out.old ++ (finish role at phase flag body).messages) }
    ensures owed { OnOk result (owed.new ≡ owed.old ++ (finish role at phase flag body).owed) }
    ensures short { AreShort owed.old → AreShort owed.new }
    ensures starved { OnErr result (out.new ≡ out.old) }
{
    match phase {
        Phase::Handshake(newer) => match handshake_cause(role, body.bytes()) {
            None => Ok(State::Units(Phase::Traffic(newer, Parts::new(alloc)), Open::Fresh)),
            Some(cause) => Ok(Phase::Handshake(newer).failure(at, cause)),
        },
        Phase::Traffic(newer, mut frames) => {
            if is_command(flag) {
                put_context(alloc, newer, body.bytes(), owed)?;
                put_meaning(alloc, role, newer, body.bytes(), out)?;
                return Ok(State::Units(Phase::Traffic(newer, frames), Open::Fresh));
            }
            frames.push(body)?;
            if is_more(flag) {
                return Ok(State::Units(Phase::Traffic(newer, frames), Open::Fresh));
            }
            out.push(frames)?;
            Ok(State::Units(Phase::Traffic(newer, Parts::new(alloc)), Open::Fresh))
        }
    }
}

/// How many octets a unit with this flag may have.
fn room_in(phase: &Phase, flag: u8) -> u64
    ensures { result ≡ room_in phase.now flag }
{
    match phase {
        Phase::Handshake(_) => MOST_OCTETS,
        Phase::Traffic(_, frames) => {
            if is_command(flag) {
                MOST_OCTETS
            } else {
                room_left(frames)
            }
        }
    }
}

/// How many octets are free beside the frames.
fn room_left(frames: &Parts) -> u64
    ensures { result ≡ room_left MOST frames.now }
{
    let mut room = MOST_OCTETS;
    for frame in frames.as_slice() {
        room = room.saturating_sub(frame.len() as u64);
    }
    room
}

/// Whether the body is the first six octets of an ERROR after the handshake.
fn is_error(phase: &Phase, flag: u8, body: &[u8]) -> bool
    ensures { result ≡ is_error phase.now flag body.now }
{
    match phase {
        Phase::Handshake(_) => false,
        Phase::Traffic(_, _) => {
            is_command(flag) && body.len() == 6 && body.starts_with(b"\x05ERROR")
        }
    }
}
