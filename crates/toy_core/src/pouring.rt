//! Octets from several places into one buffer.
ghost use Rattle.std.specs.Prelude.{◌≡◌, ◌≤◌, ◌++◌, ℕ, List, length, take, drop};
ghost use Rattle.toy_core.specs.Acts.{octets_on, octets_of, is_chan};
ghost use Rattle.toy_core.specs.Outboxes as boxes;
ghost use Rattle.toy_core.specs.Pouring.{Poured};

use crate::act::Act;
use crate::outbox::Outbox;
use world::Chan;

/// How far a buffer is filled from octets of which the first ones are passed over.
#[derive(Clone, Copy, Debug, Drop)]
pub(crate) struct Pouring {
    /// How many octets are still to be passed over.
    pub(crate) skip: usize,
    /// How many stand in the buffer.
    pub(crate) filled: usize,
}

impl Pouring {
    /// Takes more octets: passes over those that are still to be passed over, and puts the others
    /// into the buffer as far as they fit.
    fn pour(&mut self, octets: &[u8], buf: &mut [u8])
        requires { self.old.filled ≤ length buf.old }
        ensures poured { (given : ℕ) (all : List ℕ) → Poured given all self.old buf.old →
            Poured given (all ++ octets.now) self.new buf.new }
        ensures within { self.new.filled ≤ length buf.new }
    {
        if octets.len() <= self.skip {
            self.skip -= octets.len();
            return;
        }
        let rest = &octets[self.skip..];
        let count = rest.len().min(buf.len() - self.filled);
        let end = self.filled + count;
        buf[self.filled..end].copy_from_slice(&rest[..count]);
        self.skip = 0;
        self.filled = end;
    }

    /// Takes the octets that acts send on a channel.
    fn pour_acts(&mut self, acts: &[Act], on: Chan, buf: &mut [u8])
        requires { self.old.filled ≤ length buf.old }
        ensures poured { (given : ℕ) (all : List ℕ) → Poured given all self.old buf.old →
            Poured given (all ++ octets_on on acts.now) self.new buf.new }
        ensures within { self.new.filled ≤ length buf.new }
    {
        for act in acts {
            self.pour(octets_of(act, on), buf);
        }
    }
}

/// Puts what is left of a box, and of what acts send on its channel, into the buffer as far as it
/// fits, and says how many octets these are.
pub(crate) fn pour_left(outbox: &Outbox, acts: &[Act], chan: Chan, buf: &mut [u8]) -> usize
    ensures within { result ≤ length buf.new }
    ensures len { length buf.new ≡ length buf.old }
    ensures octets { take result buf.new ≡
        take (length buf.old) (boxes.rest_due outbox.now (octets_on chan acts.now)) }
{
    let mut pouring = Pouring {
        skip: outbox.given,
        filled: 0,
    };
    pouring.pour(outbox.front(), buf);
    pouring.pour(outbox.octets.bytes(), buf);
    pouring.pour_acts(acts, chan, buf);
    pouring.filled
}

/// The octets that an act sends on a channel.
fn octets_of(act: &Act, on: Chan) -> &[u8]
    ensures { result.now ≡ octets_of on act.now }
{
    match act {
        Act::Send { chan, octets } => {
            if is_chan(*chan, on) {
                octets.bytes()
            } else {
                &[]
            }
        }
        Act::Pause { .. } => &[],
        Act::End { .. } => &[],
        Act::Close { .. } => &[],
    }
}

/// Whether they are one channel.
fn is_chan(a: Chan, b: Chan) -> bool
    ensures { result ≡ is_chan a b }
{
    match (a, b) {
        (Chan::Shell, Chan::Shell) => true,
        (Chan::Control, Chan::Control) => true,
        (Chan::Iopub, Chan::Iopub) => true,
        (Chan::Heart, Chan::Heart) => true,
        _ => false,
    }
}
