//! `Outbox`, what is due on one connection.
ghost use Rattle.std.specs.Prelude.{◌≡◌, ◌^◌, ◌<◌, [], length, OnOk, OnErr};
ghost use Rattle.toy_core.specs.Outboxes as boxes;

use jtext::{Bytes, NoMemory};
use std::alloc::Global;

/// What has become due on one connection since it was taken up.
#[derive(Debug, Drop)]
pub(crate) struct Outbox {
    /// The greeting and READY, which are due once the connection is taken up.
    pub(crate) start: Bytes,
    /// Whether it was taken up.
    pub(crate) is_open: bool,
    /// What has become due after them.
    pub(crate) octets: Bytes,
    /// How many octets, of the start and of these and of what is still coming, were handed out.
    pub(crate) given: usize,
}

impl Outbox {
    /// Nothing is due before the connection is taken up.
    pub(crate) fn new(alloc: Global, start: Bytes) -> Outbox
        ensures { result ≡ boxes.new_box start }
    {
        Outbox {
            start,
            is_open: false,
            octets: Bytes::new(alloc),
            given: 0,
        }
    }

    /// The connection is taken up: only the greeting and READY are due.
    pub(crate) fn open(&mut self, alloc: Global)
        ensures { self.new ≡ boxes.open_box self.old }
    {
        self.is_open = true;
        self.octets = Bytes::new(alloc);
        self.given = 0;
    }

    /// What goes out first.
    pub(crate) fn front(&self) -> &[u8]
        ensures { result.now ≡ boxes.front self.now }
    {
        if self.is_open {
            self.start.bytes()
        } else {
            &[]
        }
    }

    /// These octets have become due. What was all handed out is let go, without memory too.
    pub(crate) fn post(&mut self, alloc: Global, octets: &[u8]) -> Result<(), NoMemory>
        ensures ok { OnOk result (self.new ≡ boxes.post_octets octets.now self.old) }
        ensures err { OnErr result (self.new ≡ boxes.trim_box self.old) }
    {
        self.trim(alloc);
        self.octets.add(octets)
    }

    /// Lets go of what was handed out, where that is all.
    fn trim(&mut self, alloc: Global)
        ensures { self.new ≡ boxes.trim_box self.old }
    {
        let front = self.front().len();
        if self.is_handed_out(front) {
            self.given -= self.octets.len();
            self.octets = Bytes::new(alloc);
        }
    }

    fn is_handed_out(&self, front: usize) -> bool
        requires { front ≡ length (boxes.front self.now) }
        ensures { result ≡ boxes.is_handed_out self.now }
    {
        front <= self.given && self.octets.len() <= self.given - front
    }

    /// So many octets were handed out.
    pub(crate) fn hand(&mut self, count: usize)
        ensures { self.new ≡ boxes.hand_out count self.old }
    {
        self.given = self.given.saturating_add(count);
    }
}
