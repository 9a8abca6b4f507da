//! `Lanes`, the kernel's side of its four connections.
ghost use Rattle.std.specs.Prelude.{◌≡◌, ◌<◌, [], length, take, IfOk, IfErr, OnOk, OnErr};
ghost use Rattle.toy_core.specs.declared.act.Act.TheVariants as act;
ghost use Rattle.toy_core.specs.Acts.{octets_on, octets_of};
ghost use Rattle.toy_core.specs.Standing as spec;
ghost use Rattle.toy_core.specs.Toy.{AreLines, lane};
ghost use Rattle.toy_core.specs.Dues.{SendsAll, Keeps};

use crate::act::Act;
use crate::lane::Lane;
use jtext::NoMemory;
use std::alloc::Global;
use world::Chan;
use zmtp_wire::Messages;

/// The kernel's side of its four connections.
#[derive(Debug, Drop)]
pub(crate) struct Lanes {
    pub(crate) shell: Lane,
    pub(crate) control: Lane,
    pub(crate) iopub: Lane,
    pub(crate) heart: Lane,
}

impl Lanes {
    /// None was taken up.
    pub(crate) fn new(alloc: Global) -> Result<Lanes, NoMemory>
        ensures { IfOk result (λ lanes. AreLines lanes spec.no_lines) }
    {
        let (shell, control) = Lane::two(alloc, Chan::Shell, Chan::Control)?;
        let (iopub, heart) = Lane::two(alloc, Chan::Iopub, Chan::Heart)?;
        Ok(Lanes {
            shell,
            control,
            iopub,
            heart,
        })
    }

    /// The connection to a channel.
    pub(crate) fn lane(&self, chan: Chan) -> &Lane
        ensures { result.now ≡ lane chan self.now }
    {
        match chan {
            Chan::Shell => &self.shell,
            Chan::Control => &self.control,
            Chan::Iopub => &self.iopub,
            Chan::Heart => &self.heart,
        }
    }

    /// A connection to a channel is taken up.
    pub(crate) fn open(&mut self, alloc: Global, chan: Chan)
        ensures { (ls : spec.Lines) → AreLines self.old ls →
            AreLines self.new (spec.with_line chan (spec.opened_line (spec.line chan ls)) ls) }
    {
        match chan {
            Chan::Shell => self.shell.open(alloc, chan),
            Chan::Control => self.control.open(alloc, chan),
            Chan::Iopub => self.iopub.open(alloc, chan),
            Chan::Heart => self.heart.open(alloc, chan),
        }
    }

    /// Takes a piece that came on a channel, and gives the bodies of the messages that end in it.
    pub(crate) fn hear(
        &mut self,
        alloc: Global,
        chan: Chan,
        piece: &[u8],
    ) -> Result<Messages, NoMemory>
        ensures lines { OnOk result ((ls : spec.Lines) → AreLines self.old ls → AreLines self.new
            (spec.with_line chan (spec.heard_on piece.now (spec.line chan ls)) ls)) }
        ensures news { IfOk result (λ bodies. (ls : spec.Lines) → AreLines self.old ls →
            bodies ≡ spec.news chan (spec.line chan ls).heard piece.now) }
        ensures keeps { Keeps self.old self.new }
    {
        match chan {
            Chan::Shell => self.shell.hear(alloc, chan, piece),
            Chan::Control => self.control.hear(alloc, chan, piece),
            Chan::Iopub => self.iopub.hear(alloc, chan, piece),
            Chan::Heart => self.heart.hear(alloc, chan, piece),
        }
    }

    /// Acts happen, in order. Without memory an `Err` says how many have happened.
    pub(crate) fn perform(&mut self, alloc: Global, acts: &[Act]) -> Result<(), usize>
        ensures lines { OnOk result ((ls : spec.Lines) →
            AreLines self.old ls → AreLines self.new (spec.perform_all acts.now ls)) }
        ensures sends { OnOk result (SendsAll (λ c. octets_on c acts.now) self.old self.new) }
        ensures fewer { IfErr result (λ done. done < length acts.now) }
        ensures part { IfErr result (λ done.
            SendsAll (λ c. octets_on c (take done acts.now)) self.old self.new) }
    {
        for (i, act) in acts.iter().enumerate() {
            match self.perform_one(alloc, act) {
                Ok(()) => {}
                Err(_) => return Err(i),
            }
        }
        Ok(())
    }

    fn perform_one(&mut self, alloc: Global, act: &Act) -> Result<(), NoMemory>
        ensures lines { OnOk result ((ls : spec.Lines) →
            AreLines self.old ls → AreLines self.new (spec.performed_one act.now ls)) }
        ensures sends { OnOk result (SendsAll (λ c. octets_of c act.now) self.old self.new) }
        ensures err { OnErr result (SendsAll (λ _. []) self.old self.new) }
    {
        match act {
            Act::Send { chan, octets } => self.send(alloc, *chan, octets.bytes()),
            Act::Pause { .. } => Ok(()),
            Act::End { .. } => Ok(()),
            Act::Close { .. } => Ok(()),
        }
    }

    /// Octets are sent on a channel.
    pub(crate) fn send(&mut self, alloc: Global, chan: Chan, octets: &[u8]) -> Result<(), NoMemory>
        ensures lines { OnOk result ((ls : spec.Lines) →
            AreLines self.old ls → AreLines self.new (spec.send_on chan octets.now ls)) }
        ensures sends { OnOk result
            (SendsAll (λ c. octets_of c (act.Send chan octets.now)) self.old self.new) }
        ensures err { OnErr result (SendsAll (λ _. []) self.old self.new) }
    {
        match chan {
            Chan::Shell => self.shell.send(alloc, octets),
            Chan::Control => self.control.send(alloc, octets),
            Chan::Iopub => self.iopub.send(alloc, octets),
            Chan::Heart => self.heart.send(alloc, octets),
        }
    }

    /// So many octets were handed out on a channel.
    pub(crate) fn hand(&mut self, chan: Chan, count: usize)
        ensures { (ls : spec.Lines) → AreLines self.old ls → AreLines self.new
            (spec.with_line chan (spec.handed_line count (spec.line chan ls)) ls) }
    {
        match chan {
            Chan::Shell => self.shell.hand(count),
            Chan::Control => self.control.hand(count),
            Chan::Iopub => self.iopub.hand(count),
            Chan::Heart => self.heart.hand(count),
        }
    }
}
