//! The world.
ghost use Rattle.std.specs.Prelude.{◌≡◌, ◌<◌, ◌≤◌, ◌^◌, ◌+◌, ◌-◌, min, None};

use crate::Talk;
use jtext::{Fields, Text, Texts};
use std::alloc::Global;
use world::{
    Chan, Clock, Conn, Connected, Did, Disk, Got, Journal, Kids, Put, Rand, ReadFile, Reports, Say,
    Wire, World, Wrote,
};

/// From this moment on the clock stands.
const LAST_MS: u64 = 1_000_000;

/// A world in which the shell of job 0 talks, and is reported by each wait. Reads and writes of files
/// fail; all else is done, and does nothing.
#[derive(Drop)]
pub struct BareWorld<T: Talk> {
    /// The other side of the shell of job 0.
    pub talk: T,
    step_ms: u8,
    faults: u64,
    waits: u64,
    last: u64,
    ghost below: { last < 2 ^ 47 },
}

impl<T: Talk> BareWorld<T> {
    /// A world whose clock goes on so many milliseconds each time that it is read.
    pub fn new(talk: T, step_ms: u8) -> BareWorld<T> {
        BareWorld {
            talk,
            step_ms,
            faults: 0,
            waits: 0,
            last: 0,
        }
    }
}

fn is_talking(conn: Conn) -> bool {
    conn.job == 0 && conn.chan == Chan::Shell
}

impl<T: Talk> Journal for BareWorld<T> {
    ghost journal = { λ _. None };

    ghost counts = { λ w. record {
      disk = w.faults;
      net = 0;
      waits = w.waits;
      child = 0;
      rand = 0;
      say = 0;
      last = w.last;
    } };
}

impl<T: Talk> Disk for BareWorld<T> {
    fn disk_faults(&self) -> u64 {
        self.faults
    }

    fn read_file(&mut self, _alloc: Global, _path: &Text, _most: u64) -> ReadFile {
        rise(&mut self.faults);
        ReadFile::Failed
    }

    fn create(&mut self, _path: &Text) -> Did {
        Did::Done
    }

    fn write(&mut self, _path: &Text, _piece: &[u8]) -> Wrote {
        rise(&mut self.faults);
        Wrote::Failed
    }

    fn sync(&mut self, _path: &Text) -> Did {
        Did::Done
    }

    fn rename(&mut self, _from: &Text, _to: &Text) -> Did {
        Did::Done
    }

    fn sync_dir(&mut self, _dir: &Text) -> Did {
        Did::Done
    }

    fn remove(&mut self, _path: &Text) -> Did {
        Did::Done
    }
}

impl<T: Talk> Wire for BareWorld<T> {
    fn net_faults(&self) -> u64 {
        0
    }

    fn waits(&self) -> u64 {
        self.waits
    }

    fn free_ports(&mut self, _job: u8) -> Option<[u16; 5]> {
        Some([1, 2, 3, 4, 5])
    }

    fn connect(&mut self, _conn: Conn, _port: u16) -> Connected {
        Connected::Begun
    }

    fn read(&mut self, conn: Conn, buf: &mut [u8]) -> Got {
        if !is_talking(conn) {
            return Got::Dry;
        }
        if self.talk.has_ended() {
            return Got::Ended;
        }
        let size = self.talk.give(buf);
        if size == 0 {
            Got::Dry
        } else {
            Got::Piece(size)
        }
    }

    fn write(&mut self, conn: Conn, piece: &[u8]) -> Put {
        if !is_talking(conn) {
            return Put::Stuck;
        }
        if self.talk.has_ended() {
            return Put::Ended;
        }
        let size = self.talk.take(piece);
        if size == 0 {
            Put::Stuck
        } else {
            Put::Took(size)
        }
    }

    fn close(&mut self, _conn: Conn) {}

    fn wait(&mut self, _ms: u32, out: &mut Reports) -> Did {
        rise(&mut self.waits);
        self.talk.wake();
        let mut ready = [false; 64];
        ready[0] = true;
        *out = Reports { ready };
        Did::Done
    }
}

impl<T: Talk> Kids for BareWorld<T> {
    fn child_faults(&self) -> u64 {
        0
    }

    fn start(&mut self, _job: u8, _argv: &Texts, _env: &Fields, _dir: &Text) -> Did {
        Did::Done
    }

    fn look(&mut self, _job: u8) -> Option<i32> {
        None
    }

    fn end(&mut self, _job: u8) {}
}

impl<T: Talk> Clock for BareWorld<T> {
    fn now(&mut self) -> u64 {
        if self.last < LAST_MS {
            self.last += u64::from(self.step_ms);
        }
        self.last
    }

    fn last(&self) -> u64 {
        self.last
    }
}

impl<T: Talk> Rand for BareWorld<T> {
    fn rand_faults(&self) -> u64 {
        0
    }

    fn word(&mut self) -> Option<u64> {
        Some(1)
    }
}

impl<T: Talk> Say for BareWorld<T> {
    fn say_faults(&self) -> u64 {
        0
    }

    fn write(&mut self, _piece: &[u8]) -> Wrote {
        Wrote::Took(1)
    }
}

impl<T: Talk> World for BareWorld<T> {}

// One more, up to the last value.
fn rise(count: &mut u64)
    ensures is { count.new ≡ min (count.old + 1) (2 ^ 64 - 1) }
    ensures later { count.old ≤ count.new }
{
    *count = count.saturating_add(1);
}
