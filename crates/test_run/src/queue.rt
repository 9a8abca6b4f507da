//! `Queue`, what is due on one connection by a script.
ghost use Rattle.std.specs.Prelude.{◌≡◌, ◌<◌, ◌≤◌, ℕ, length, drop, take};
ghost use Rattle.world.specs.Kernel.{Gives, is_something};
ghost use Rattle.toy_core.specs.Outboxes.{handing};

use crate::octets::{holds, message_len, part, spoil, swap};
use crate::rule::{Deed, Mark, Rule};
use jtext::{Bytes, NoMemory, Text};
use std::alloc::Global;
use world::Give;

/// In a message, the end of the id of the request of the first cell.
const FIRST: &str = "1_2\"";

/// That of no request.
const OTHER: &str = "2_2\"";

/// That of the request of the second cell.
const NEXT: &str = "1_3\"";

/// What is due on one connection by a script, and the script's rule for it.
#[derive(Drop)]
pub(crate) struct Queue {
    alloc: Global,
    rule: Rule,
    /// What is due or was handed out.
    octets: Bytes,
    /// How many of these octets were handed out.
    given: usize,
    /// What waits for its turn.
    held: Bytes,
    /// How many messages came, with the greeting and READY.
    count: u32,
    /// Nothing more becomes due.
    pub(crate) is_over: bool,
}

impl Queue {
    /// Nothing is due.
    pub(crate) fn new(alloc: Global, rule: Rule) -> Queue {
        Queue {
            alloc,
            rule,
            octets: Bytes::new(alloc),
            given: 0,
            held: Bytes::new(alloc),
            count: 0,
            is_over: false,
        }
    }

    /// Takes whole messages that become due, signed under this key.
    pub(crate) fn take(&mut self, key: &Text, octets: &[u8]) -> Result<(), NoMemory> {
        let mut rest = octets;
        for _ in 0..64 {
            let size = if self.count == 0 {
                64
            } else {
                message_len(self.alloc, rest)?
            };
            let (message, more) = rest.split_at(size.min(rest.len()));
            if message.is_empty() {
                return Ok(());
            }
            self.pass(key, message)?;
            rest = more;
        }
        Ok(())
    }

    // Passes a message through the rule.
    fn pass(&mut self, key: &Text, message: &[u8]) -> Result<(), NoMemory> {
        if matches!(self.rule.deed, Deed::Endless) && !self.held.is_empty() {
            return Ok(());
        }
        if matches!(self.rule.deed, Deed::Replay) {
            self.release()?;
        }
        let is_meant = self.is_meant(message);
        self.count = self.count.saturating_add(1);
        if is_meant {
            self.do_to(key, message)?;
        } else {
            self.post(message)?;
        }
        if matches!(self.rule.deed, Deed::Late | Deed::Early) && holds(message, "idle") {
            self.release()?;
        }
        Ok(())
    }

    // Whether the rule is for this message.
    fn is_meant(&self, message: &[u8]) -> bool {
        match self.rule.mark {
            Mark::Greeting => self.count == 0,
            Mark::Ready => self.count == 1,
            Mark::Messages => 2 <= self.count,
            Mark::Info => holds(message, "kernel_info_reply"),
            Mark::Replies => holds(message, "execute_reply"),
            Mark::Idles => holds(message, "\"idle\"") && holds(message, "execute_request"),
            Mark::First => holds(message, "execute_request") && holds(message, FIRST),
            Mark::FirstReply => holds(message, "execute_reply") && holds(message, FIRST),
            Mark::FirstIdle => holds(message, "\"idle\"") && holds(message, FIRST),
            Mark::FirstInput => holds(message, "execute_input") && holds(message, FIRST),
            Mark::FirstStream => holds(message, "\"stream\"") && holds(message, FIRST),
        }
    }

    fn do_to(&mut self, key: &Text, message: &[u8]) -> Result<(), NoMemory> {
        match self.rule.deed {
            Deed::Keep => self.post(message),
            Deed::Drop => Ok(()),
            Deed::Repeat => self.post_both(message, message),
            Deed::AddHuge => self.post_both(message, b"\x02\x80\x00\x00\x00\x00\x00\x00\x00"),
            Deed::AddError => self.post_both(message, b"\x04\x07\x05ERROR\x00"),
            Deed::Break => self.post_both(&[0xFE], part(message, 1, message.len())),
            Deed::Cut => {
                self.post(part(message, 0, message.len() / 2))?;
                self.is_over = true;
                Ok(())
            }
            Deed::Hold | Deed::Late | Deed::Endless => self.held.add(message),
            Deed::Early | Deed::Replay => self.repeat(key, message),
            Deed::Spoil | Deed::Swap | Deed::Echo => self.change(key, message),
        }
    }

    fn change(&mut self, key: &Text, message: &[u8]) -> Result<(), NoMemory> {
        match self.rule.deed {
            Deed::Spoil => {
                let spoilt = spoil(self.alloc, message)?;
                self.post(spoilt.bytes())
            }
            Deed::Swap => {
                let changed = swap(self.alloc, key.bytes(), message, FIRST, OTHER)?;
                self.post(changed.bytes())
            }
            Deed::Echo => {
                let changed = swap(self.alloc, key.bytes(), message, FIRST, NEXT)?;
                self.post_both(message, changed.bytes())
            }
            _ => Ok(()),
        }
    }

    // The message becomes due, and later also for the next request.
    fn repeat(&mut self, key: &Text, message: &[u8]) -> Result<(), NoMemory> {
        let changed = swap(self.alloc, key.bytes(), message, FIRST, NEXT)?;
        self.post(message)?;
        if matches!(self.rule.deed, Deed::Replay) {
            self.post(changed.bytes())?;
        }
        self.held.add(changed.bytes())
    }

    fn post_both(&mut self, first: &[u8], second: &[u8]) -> Result<(), NoMemory> {
        self.post(first)?;
        self.post(second)
    }

    // These octets become due, unless nothing more does.
    fn post(&mut self, octets: &[u8]) -> Result<(), NoMemory> {
        if self.is_over {
            return Ok(());
        }
        self.octets.add(octets)
    }

    // What waits becomes due.
    fn release(&mut self) -> Result<(), NoMemory> {
        if self.is_over {
            return Ok(());
        }
        self.octets.add(self.held.bytes())?;
        self.held = Bytes::new(self.alloc);
        Ok(())
    }

    /// A tick: what waits becomes due where all was handed out, and what has no end does again.
    pub(crate) fn tick(&mut self, are_dry: bool) -> Result<(), NoMemory> {
        match self.rule.deed {
            Deed::Hold => {
                if are_dry {
                    self.release()?;
                }
                Ok(())
            }
            Deed::Endless => self.octets.add(self.held.bytes()),
            _ => Ok(()),
        }
    }

    /// Whether all that is due was handed out.
    pub(crate) fn is_dry(&self) -> bool {
        self.rest().is_empty()
    }

    // What is due and wasn't handed out.
    fn rest(&self) -> &[u8]
        ensures { result.now ≡ drop self.now.given self.now.octets }
    {
        if self.octets.len() <= self.given {
            &[]
        } else {
            &self.octets.bytes()[self.given..]
        }
    }

    /// Hands out what is due and fits the buffer.
    pub(crate) fn give(&mut self, buf: &mut [u8]) -> Give
        requires { 0 < length buf.old }
        ensures { Gives (handing (length buf.old) (drop self.old.given self.old.octets)
            self.old.is_over) result buf.new }
    {
        let count = self.pour(buf);
        self.given = self.given.saturating_add(count);
        if 0 < count {
            return Give::Bytes(count);
        }
        if self.is_over {
            Give::Ended
        } else {
            Give::Nothing
        }
    }

    // Puts what is due into the buffer, as far as it fits.
    fn pour(&self, buf: &mut [u8]) -> usize
        ensures within { result ≤ length buf.new }
        ensures octets { take result buf.new ≡ take (length buf.old)
            (drop self.now.given self.now.octets) }
    {
        let due = self.rest();
        let count = due.len().min(buf.len());
        buf[..count].copy_from_slice(&due[..count]);
        count
    }

    /// Whether there is something to hand out, octets or the end.
    pub(crate) fn is_ready(&self) -> bool
        ensures { (room : ℕ) → 0 < room → result ≡ is_something (handing room
            (drop self.now.given self.now.octets) self.now.is_over) }
    {
        !self.rest().is_empty() || self.is_over
    }
}
