//! `Lines`, our sides of the four connections to a kernel.

use crate::Line;
use jtext::{Bytes, NoMemory};
use std::alloc::Global;
use world::Chan;
use zmtp_wire::{Messages, Parts, Role, WireFault};

/// Our sides of the four connections to a kernel (Jupyter messaging 5.3, "Introduction").
#[derive(Drop)]
pub struct Lines {
    shell: Line,
    control: Line,
    iopub: Line,
    heart: Line,
}

impl Lines {
    ghost use Rattle.std.specs.Prelude.{◌≡◌, ◌<◌, ℕ, Bool, ◌&&◌, List, [], ◌∷◌, ◌++◌, length};
    ghost use Rattle.std.specs.Prelude.{IfOk, OnOk, None, Some};
    ghost use Rattle.zmtp_wire.specs.Meaning.{is_shaken};
    ghost use Rattle.zmtp_peer.specs.Peer.{Brings};
    ghost use Rattle.zmtp_peer.specs.Sending.{IsBody};
    ghost use Rattle.world.specs.declared.chan.Chan.{Chan as Channel};
    ghost use Rattle.kernel_lines.specs.Happened.{History, Came, Given, came_in};
    ghost use Rattle.kernel_lines.specs.Line.{StandsFor, role_of, queue_of, taken_of, HandsOut};
    ghost use Rattle.kernel_lines.specs.Ends.{answer_by};
    ghost use Rattle.kernel_lines.specs.Lines.{line_on, role_on, can_ask, OthersStay};
    ghost use Rattle.world.specs.declared.chan.Chan.TheVariants as channel;

    /// Four new connections.
    pub fn new(alloc: Global) -> Result<Lines, NoMemory>
        ensures role { IfOk result (λ ls. (c : Channel) → role_of (line_on ls c) ≡ role_on c) }
        ensures stands { IfOk result (λ ls. (c : Channel) → StandsFor (line_on ls c) [] []) }
        ensures taken { IfOk result (λ ls. (c : Channel) → taken_of (line_on ls c) ≡ 0) }
    {
        Ok(Lines {
            shell: Line::new(alloc, Role::Dealer)?,
            control: Line::new(alloc, Role::Dealer)?,
            iopub: Line::new(alloc, Role::Sub)?,
            heart: Line::new(alloc, Role::Req)?,
        })
    }

    /// The connection to this channel.
    pub fn of(&self, chan: Chan) -> &Line
        ensures { result.now ≡ line_on self.now chan }
    {
        match chan {
            Chan::Shell => &self.shell,
            Chan::Control => &self.control,
            Chan::Iopub => &self.iopub,
            Chan::Heart => &self.heart,
        }
    }

    /// Whether the kernel can be asked: the handshakes on shell and IOPub are finished, and the
    /// subscription was taken.
    pub fn can_ask(&self) -> bool
        ensures { (shell iopub : History) (out given : List ℕ) →
            StandsFor (line_on self.now channel.Shell) shell out →
            StandsFor (line_on self.now channel.Iopub) iopub given →
            result ≡ can_ask self.now shell iopub }
    {
        self.shell.is_shaken() && self.iopub.is_shaken() && self.iopub.is_subscribed()
    }

    /// So many octets were taken of this connection.
    pub fn on_taken(&mut self, chan: Chan, taken: u64)
        ensures others { OthersStay chan self.old self.new }
        ensures taken { taken_of (line_on self.new chan) ≡ taken }
        ensures role { role_of (line_on self.new chan) ≡ role_of (line_on self.old chan) }
        ensures stands { (h : History) (out : List ℕ) →
            StandsFor (line_on self.old chan) h out → StandsFor (line_on self.new chan) h out }
    {
        match chan {
            Chan::Shell => self.shell.on_taken(taken),
            Chan::Control => self.control.on_taken(taken),
            Chan::Iopub => self.iopub.on_taken(taken),
            Chan::Heart => self.heart.on_taken(taken),
        }
    }

    /// Takes a piece that came on this channel, and gives the messages that end in it.
    pub fn feed(
        &mut self,
        chan: Chan,
        piece: &[u8],
    ) -> Result<(Messages, Option<WireFault>), NoMemory>
        ensures others { OthersStay chan self.old self.new }
        ensures role { role_of (line_on self.new chan) ≡ role_of (line_on self.old chan) }
        ensures taken { taken_of (line_on self.new chan) ≡ taken_of (line_on self.old chan) }
        ensures stands { OnOk result ((h : History) (out : List ℕ) →
            StandsFor (line_on self.old chan) h out →
            StandsFor (line_on self.new chan) (Came piece.now ∷ h) out) }
        ensures brings { IfOk result (λ r. (h : History) (out : List ℕ) →
            StandsFor (line_on self.old chan) h out → Brings (role_of (line_on self.old chan))
            (came_in h) piece.now [] r.0 (answer_by r.1)) }
    {
        match chan {
            Chan::Shell => self.shell.feed(piece),
            Chan::Control => self.control.feed(piece),
            Chan::Iopub => self.iopub.feed(piece),
            Chan::Heart => self.heart.feed(piece),
        }
    }

    /// A message of 1 to 63 parts is due on this channel.
    pub fn send(&mut self, chan: Chan, parts: &Parts) -> Result<(), NoMemory>
        requires { IsBody parts.now }
        ensures others { OthersStay chan self.old self.new }
        ensures role { role_of (line_on self.new chan) ≡ role_of (line_on self.old chan) }
        ensures taken { taken_of (line_on self.new chan) ≡ taken_of (line_on self.old chan) }
        ensures stands { OnOk result ((h : History) (out : List ℕ) →
            StandsFor (line_on self.old chan) h out →
            StandsFor (line_on self.new chan) (Given parts.now ∷ h) out) }
    {
        match chan {
            Chan::Shell => self.shell.send(parts),
            Chan::Control => self.control.send(parts),
            Chan::Iopub => self.iopub.send(parts),
            Chan::Heart => self.heart.send(parts),
        }
    }

    /// Hands out what is due on this channel, where there is anything that wasn't handed out.
    pub fn take(&mut self, chan: Chan) -> Option<Bytes>
        ensures others { OthersStay chan self.old self.new }
        ensures role { role_of (line_on self.new chan) ≡ role_of (line_on self.old chan) }
        ensures taken { taken_of (line_on self.new chan) ≡ taken_of (line_on self.old chan) }
        ensures handed { HandsOut (queue_of (line_on self.old chan)) result }
        ensures stands { (h : History) (out : List ℕ) → StandsFor (line_on self.old chan) h out →
            StandsFor (line_on self.new chan) h (out ++ queue_of (line_on self.old chan)) }
    {
        match chan {
            Chan::Shell => self.shell.take(),
            Chan::Control => self.control.take(),
            Chan::Iopub => self.iopub.take(),
            Chan::Heart => self.heart.take(),
        }
    }
}
