//! The loop over the sockets.
ghost use Rattle.std.specs.Prelude.{◌≡◌, ◌<◌, ◌≤◌, ◌^◌, IfOk};

use crate::sockets::Sockets;
use crate::{HostFault, Ports};
use std::alloc::Global;
use std::net::Net;
use std::rt::Clock;
use std::time::{SystemTime, UNIX_EPOCH};
use world::KernelSide;

/// The most octets that are read at once.
const ROOM: usize = 65_536;

/// The latest moment that a kernel knows.
const LAST: u64 = 140_737_488_355_327;

/// How long it waits for something to come, in milliseconds, before it looks what has become due.
const REST_MS: u64 = 20;

/// How often it tries to write what is still held once the kernel has ended: for five seconds.
const LAST_TURNS: u32 = 250;

/// Listens on the ports and serves the kernel until it ends, and gives the status with which it
/// ended; what was due before is still written, where the peers take it within five seconds. One
/// connection is served on each port at a time. Nothing is promised of time.
pub fn serve<R: Net + Clock, K: KernelSide>(
    rt: &R,
    alloc: Global,
    ports: Ports,
    kernel: &mut K,
) -> Result<i32, HostFault>
    requires { K.latest kernel.old ≡ 0 }
{
    let mut sockets = Sockets::open(rt, alloc, ports)?;
    let mut buf = Vec::from_elem(alloc, 0u8, ROOM)?;
    let mut turn = Turn { now: 0, went: true };
    let mut left = LAST_TURNS;
    for _ in 0..u64::MAX {
        turn = turn.next(rt, alloc, &mut sockets, kernel, buf.as_mut_slice())?;
        if let Some(status) = kernel.exited(turn.now) {
            if left == 0 || (!turn.went && sockets.is_idle()) {
                return Ok(status);
            }
            left -= 1;
        }
    }
    Ok(1)
}

/// A turn of the loop.
#[derive(Clone, Copy, Debug, Drop)]
struct Turn {
    /// Its moment.
    now: u64,
    /// Whether anything went in it.
    went: bool,
}

impl Turn {
    /// The next turn: waits where nothing went, tells the kernel the moment, and hands on what came and
    /// what is due.
    fn next<R: Clock, K: KernelSide>(
        self,
        rt: &R,
        alloc: Global,
        sockets: &mut Sockets,
        kernel: &mut K,
        buf: &mut [u8],
    ) -> Result<Turn, HostFault>
        requires bound { self.now < 2 ^ 47 }
        requires later { K.latest kernel.old ≤ self.now }
        ensures { IfOk result (λ t. (t.now < 2 ^ 47) × (K.latest kernel.new ≤ t.now)) }
    {
        sockets.rest(if self.went { 0 } else { REST_MS })?;
        let now = later(rt, self.now);
        kernel.tick(alloc, now)?;
        let went = sockets.turn(alloc, kernel, now, buf)?;
        Ok(Turn { now, went })
    }
}

/// The moment by the clock, and never before the last one.
fn later<R: Clock>(rt: &R, last: u64) -> u64
    requires { last < 2 ^ 47 }
    ensures later { last ≤ result }
    ensures bound { result < 2 ^ 47 }
{
    last.max(moment(rt).min(LAST))
}

fn moment<R: Clock>(rt: &R) -> u64 {
    let Ok(time) = SystemTime::now(rt) else {
        return 0;
    };
    let Ok(since) = time.duration_since(UNIX_EPOCH) else {
        return 0;
    };
    since.as_millis().min(LAST as u128) as u64
}
