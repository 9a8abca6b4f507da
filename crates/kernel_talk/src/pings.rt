//! `Pings`, whether a kernel still answers.
ghost use Rattle.std.specs.Prelude.{◌≡◌, ◌<◌, ◌^◌, None};
ghost use Rattle.kernel_talk.specs.Asking.{has_passed};
ghost use Rattle.kernel_talk.specs.Pinging as pinging;

use std::marker::Model;

/// The milliseconds between two pings, and from the tenth unanswered one to the kernel's loss.
const GAP_MS: u64 = 3000;

/// After so many pings that were not answered the kernel is lost.
const MOST: u8 = 10;

/// A ping that was queued.
#[derive(Clone, Copy, Debug, Drop, PartialEq, Eq)]
struct Ping {
    at: u64,
    end: u64,
}

/// The pings on the heartbeat channel, and which of them were not answered (Jupyter messaging 5.3,
/// "Heartbeat for kernels").
#[derive(Debug, Drop)]
pub struct Pings {
    last: Option<u64>,
    count: u8,
    tenth: Option<Ping>,
}

impl Model for Pings {
    ghost use Rattle.std.specs.Prelude.{◌<◌, ◌≤◌, ◌^◌, option_map};
    ghost use Rattle.std.specs.Option.{IfSome};
    ghost use Rattle.kernel_talk.specs.Pinging.{Pinged};

    ghost Value = { Pinged };

    ghost view = { λ p. record {
      last = p.last;
      count = p.count;
      tenth = option_map (λ t. record { at = t.at; end = t.end }) p.tenth;
    } };

    ghost invariant = { λ p. IfSome p.last (λ at. at < 2 ^ 47) × (p.count ≤ 10)
        × IfSome p.tenth (λ t. t.at < 2 ^ 47) };
}

impl Pings {
    /// No ping was sent.
    pub fn new() -> Pings
        ensures { result ≡ record { last = None; count = 0; tenth = None } }
    {
        Pings {
            last: None,
            count: 0,
            tenth: None,
        }
    }

    /// Whether a kernel that can be pinged is pinged at this moment; it can be once it is ready and
    /// the heartbeat's handshake is finished.
    pub fn is_due(&self, can: bool, ms: u64) -> bool
        ensures { result ≡ pinging.pings self.now can ms }
    {
        can && self.has_passed(ms)
    }

    fn has_passed(&self, ms: u64) -> bool
        ensures { result ≡ has_passed pinging.ping_ms self.now.last ms }
    {
        match self.last {
            Some(at) => at + GAP_MS <= ms,
            None => true,
        }
    }

    /// The moment of the next ping, where the last clock entry is `now`; none while the kernel can't
    /// be pinged.
    pub fn next(&self, can: bool, now: u64) -> Option<u64>
        ensures { result ≡ pinging.next_ping self.now can now }
    {
        if !can {
            return None;
        }
        match self.last {
            Some(at) => Some(at + GAP_MS),
            None => Some(now),
        }
    }

    /// A ping was queued at this moment; it is sent whole once `end` octets of its connection were
    /// taken.
    pub fn on_ping(&mut self, ms: u64, end: u64)
        requires { ms < 2 ^ 47 }
        ensures { self.new ≡ pinging.pinged_at self.old ms end }
    {
        self.last = Some(ms);
        if self.count == MOST - 1 {
            self.tenth = Some(Ping { at: ms, end });
        }
        if self.count < MOST {
            self.count += 1;
        }
    }

    /// A message came on the heartbeat channel.
    pub fn on_echo(&mut self)
        ensures { self.new ≡ pinging.after_echo self.old }
    {
        self.count = 0;
        self.tenth = None;
    }

    /// Whether the kernel is lost at this moment, where so many octets of its connection were taken.
    pub fn is_lost(&self, ms: u64, taken: u64) -> bool
        ensures { result ≡ pinging.is_lost self.now ms taken }
    {
        match self.tenth {
            Some(ping) => ping.end <= taken && ping.at + GAP_MS <= ms,
            None => false,
        }
    }
}
