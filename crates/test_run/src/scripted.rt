//! `Scripted`, a toy kernel behind a script.
ghost use Rattle.std.specs.Prelude.{◌≡◌, ◌<◌, ◌≤◌, ◌^◌, drop, length};
ghost use Rattle.toy_core.specs.Outboxes.{handing};
ghost use Rattle.toy_core.specs.Toy as toy;
ghost use Rattle.test_run.specs.Scripted as spec;

use crate::octets::{holds, message_len, part};
use crate::queue::Queue;
use crate::rule::{Trick, control_rule, heart_rule, iopub_rule, shell_rule};
use jtext::{NoMemory, Text};
use std::alloc::Global;
use toy_core::Toy;
use world::{Chan, Give, KernelSide};

/// A toy kernel, what it says after each tick passed through the rules of a script.
#[derive(Drop)]
pub(crate) struct Scripted {
    alloc: Global,
    toy: Toy,
    key: Text,
    shell: Queue,
    control: Queue,
    iopub: Queue,
    heart: Queue,
    is_deaf: bool,
    /// The idle of each cell becomes due on shell too.
    says_idle_twice: bool,
}

impl Scripted {
    /// This kernel, which signs under this key, with a trick.
    pub(crate) fn new(alloc: Global, toy: Toy, key: Text, trick: Trick) -> Scripted
        ensures { result.toy ≡ toy }
    {
        Scripted {
            alloc,
            toy,
            key,
            shell: Queue::new(alloc, shell_rule(trick)),
            control: Queue::new(alloc, control_rule(trick)),
            iopub: Queue::new(alloc, iopub_rule(trick)),
            heart: Queue::new(alloc, heart_rule(trick)),
            is_deaf: matches!(trick, Trick::Deaf),
            says_idle_twice: matches!(trick, Trick::IdleOnShellFirst | Trick::IdleOnShellLast),
        }
    }

    // What the kernel says on all channels becomes due.
    fn pull(&mut self, now: u64) -> Result<(), NoMemory>
        requires bound { now < 2 ^ 47 }
        requires latest { toy.latest_of self.old.toy ≡ now }
        ensures { toy.latest_of self.new.toy ≡ now }
    {
        self.pull_on(Chan::Shell, now)?;
        self.pull_on(Chan::Control, now)?;
        self.pull_on(Chan::Iopub, now)?;
        self.pull_on(Chan::Heart, now)?;
        Ok(())
    }

    // What the kernel says on a channel becomes due, by the rule of the channel.
    fn pull_on(&mut self, chan: Chan, now: u64) -> Result<(), NoMemory>
        requires bound { now < 2 ^ 47 }
        requires latest { toy.latest_of self.old.toy ≡ now }
        ensures { toy.latest_of self.new.toy ≡ now }
    {
        let mut buf = [0u8; 8192];
        match self.toy.give(chan, now, &mut buf) {
            Give::Bytes(count) => self.pass(chan, part(&buf, 0, count)),
            Give::Nothing => Ok(()),
            Give::Ended => {
                self.end(chan);
                Ok(())
            }
        }
    }

    fn pass(&mut self, chan: Chan, octets: &[u8]) -> Result<(), NoMemory>
        ensures { self.new.toy ≡ self.old.toy }
    {
        match chan {
            Chan::Shell => self.shell.take(&self.key, octets),
            Chan::Control => self.control.take(&self.key, octets),
            Chan::Iopub => {
                if self.says_idle_twice {
                    repeat_idles(self.alloc, &mut self.shell, &self.key, octets)?;
                }
                self.iopub.take(&self.key, octets)
            }
            Chan::Heart => self.heart.take(&self.key, octets),
        }
    }

    fn end(&mut self, chan: Chan)
        ensures { self.new.toy ≡ self.old.toy }
    {
        match chan {
            Chan::Shell => self.shell.is_over = true,
            Chan::Control => self.control.is_over = true,
            Chan::Iopub => self.iopub.is_over = true,
            Chan::Heart => self.heart.is_over = true,
        }
    }

    // What waits for this tick becomes due.
    fn release(&mut self) -> Result<(), NoMemory>
        ensures { self.new.toy ≡ self.old.toy }
    {
        let are_dry = self.shell.is_dry() && self.iopub.is_dry();
        self.shell.tick(are_dry)?;
        self.iopub.tick(are_dry)
    }
}

// The idle of each cell among these published octets becomes due on shell.
fn repeat_idles(
    alloc: Global,
    shell: &mut Queue,
    key: &Text,
    octets: &[u8],
) -> Result<(), NoMemory> {
    if !holds(octets, "execute_request") {
        return Ok(());
    }
    let mut rest = octets;
    for _ in 0..64 {
        let size = message_len(alloc, rest)?;
        let (message, more) = rest.split_at(size.min(rest.len()));
        if holds(message, "\"idle\"") && holds(message, "execute_request") {
            shell.take(key, message)?;
        }
        rest = more;
    }
    Ok(())
}

impl KernelSide for Scripted {
    ghost use Rattle.std.specs.Prelude.{ℕ, List, Bool, IfOk};

    ghost latest = { λ k. toy.latest_of k.toy };

    ghost accepts = { λ k chan now. toy.accepts k.toy chan now };

    ghost gives = { λ k chan now room. handing room
        (spec.on chan k.shell k.control k.iopub k.heart (λ q. drop q.given q.octets))
        (spec.on chan k.shell k.control k.iopub k.heart (λ q. q.is_over)) };

    ghost exits = { λ k now. toy.exits k.toy now };

    ghost stands = { λ k calls. Unit {0} };

    fn tick(&mut self, alloc: Global, now: u64) -> Result<(), NoMemory> {
        self.toy.tick(alloc, now)?;
        if self.says_idle_twice {
            // What waits comes before what the kernel says next.
            self.release()?;
        }
        self.pull(now)?;
        self.release()
    }

    fn accept(&mut self, chan: Chan, now: u64) -> bool {
        self.toy.accept(chan, now)
    }

    fn take(&mut self, alloc: Global, chan: Chan, now: u64, piece: &[u8]) -> Result<(), NoMemory> {
        if self.is_deaf && holds(piece, "interrupt_request") {
            return self.toy.tick(alloc, now);
        }
        self.toy.take(alloc, chan, now, piece)
    }

    fn give(&mut self, chan: Chan, now: u64, buf: &mut [u8]) -> Give {
        let _ = self.toy.tick(self.alloc, now);
        match chan {
            Chan::Shell => self.shell.give(buf),
            Chan::Control => self.control.give(buf),
            Chan::Iopub => self.iopub.give(buf),
            Chan::Heart => self.heart.give(buf),
        }
    }

    fn ready(&self, chan: Chan, _now: u64) -> bool {
        match chan {
            Chan::Shell => self.shell.is_ready(),
            Chan::Control => self.control.is_ready(),
            Chan::Iopub => self.iopub.is_ready(),
            Chan::Heart => self.heart.is_ready(),
        }
    }

    fn exited(&self, now: u64) -> Option<i32> {
        self.toy.exited(now)
    }
}
