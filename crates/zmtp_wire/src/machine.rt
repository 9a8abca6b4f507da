//! The decoder's steps over a piece: octet by octet, but for what is surely in the middle of a
//! body.
ghost use Rattle.std.specs.Prelude.{◌≡◌, ℕ, List, ◌++◌, ◌+◌, ◌<◌, ◌≤◌, ◌⊎◌, length, IfOk, OnOk};
ghost use Rattle.std.specs.Prelude.{OnErr};
ghost use Rattle.zmtp_wire.specs.declared.role.Role.{Role};
ghost use Rattle.zmtp_wire.specs.Command.{AreShort};
ghost use Rattle.zmtp_wire.specs.Machine.{step, run, ticks, GrowsBy};

use crate::flag::is_command;
use crate::opening::greeting_step;
use crate::parts::{Messages, Parts};
use crate::role::Role;
use crate::state::{Open, State};
use crate::unit::unit_step;
use jtext::NoMemory;
use std::alloc::Global;

/// What a piece that begins at `start` brings to the state.
pub fn run(
    alloc: Global,
    role: Role,
    start: u64,
    state: State,
    piece: &[u8],
    out: &mut Messages,
    owed: &mut Parts,
) -> Result<State, NoMemory>
    ensures state { IfOk result (λ s. s ≡ (run role start state piece.now).state) }
    ensures messages { OnOk result
        (out.new ≡ out.old ++ (run role start state piece.now).messages) }
    ensures owed { OnOk result (owed.new ≡ owed.old ++ (run role start state piece.now).owed) }
    ensures short { AreShort owed.old → AreShort owed.new }

    // Without memory the first ones of the messages are there.
    ensures starved { OnErr result
        (GrowsBy out.old out.new (run role start state piece.now).messages) }
{
    let mut at = start;
    let mut now = state;
    let mut rest = piece;
    while !rest.is_empty() {
        (at, now, rest) = fill(at, now, rest)?;
        if let Some((octet, after)) = rest.split_first() {
            now = step(alloc, role, at, now, *octet, out, owed)?;
            at = at.saturating_add(1);
            rest = after;
        }
    }
    Ok(now)
}

/// What one more octet brings.
fn step(
    alloc: Global,
    role: Role,
    at: u64,
    state: State,
    octet: u8,
    out: &mut Messages,
    owed: &mut Parts,
) -> Result<State, NoMemory>
    ensures state { IfOk result (λ s. s ≡ (step role at state octet).state) }
    ensures messages { OnOk result (out.new ≡ out.old ++ (step role at state octet).messages) }
    ensures owed { OnOk result (owed.new ≡ owed.old ++ (step role at state octet).owed) }
    ensures short { AreShort owed.old → AreShort owed.new }
    ensures starved { OnErr result (out.new ≡ out.old) }
{
    match state {
        State::Greeting(so_far) => greeting_step(at, so_far, octet),
        State::Units(phase, so_far) => {
            unit_step(alloc, role, at, phase, so_far, octet, out, owed)
        }
        State::Failed(over, fault) => Ok(State::Failed(over, fault)),
    }
}

/// Takes what is surely in the middle of a body, and answers with the octets that are left.
/// The last octet of a body and the first six of a command's are left to `step`, which tests there.
fn fill<'a>(at: u64, state: State, rest: &'a [u8]) -> Result<(u64, State, &'a [u8]), NoMemory>
    ensures within { IfOk result (λ x. length x.2.now ≤ length rest.now) }
    ensures run { IfOk result (λ x. (r : Role) → run r at state rest.now ≡ run r x.0 x.1 x.2.now) }
{
    match state {
        State::Units(phase, so_far) => match so_far {
            Open::Body(flag, size, body) => {
                if is_command(flag) && body.len() < 6 {
                    return Ok((at, State::Units(phase, Open::Body(flag, size, body)), rest));
                }
                let taken = middle(size, body.len(), rest.len());
                let mut longer = body;
                let (front, after) = rest.split_at(taken);
                longer.add(front)?;
                let now = at.saturating_add(taken as u64);
                Ok((
                    now,
                    State::Units(phase, Open::Body(flag, size, longer)),
                    after,
                ))
            }
            Open::Fresh => Ok((at, State::Units(phase, Open::Fresh), rest)),
            Open::Size(flag, octets) => {
                Ok((at, State::Units(phase, Open::Size(flag, octets)), rest))
            }
        },
        State::Greeting(octets) => Ok((at, State::Greeting(octets), rest)),
        State::Failed(over, fault) => Ok((at, State::Failed(over, fault), rest)),
    }
}

/// How many of the octets that came stand before the last one of the body.
fn middle(size: u64, had: usize, came: usize) -> usize
    ensures within { result ≤ came }
    ensures before_last { result ≡ 0 ⊎ had + result < size }
{
    let room = size.saturating_sub(had as u64).saturating_sub(1);
    if room < came as u64 {
        room as usize
    } else {
        came
    }
}
