//! Connections to the kernels, and the wait for them.
ghost use Rattle.std.specs.Prelude.{◌≡◌, ◌<◌, ℕ, false, length, replicate, IfSome, All};
ghost use Rattle.world.specs.declared.entry.Entry.{Entry};
ghost use Rattle.world.specs.Counts.{CountsBy, NetCause, WaitCause};
ghost use Rattle.world.specs.Faults.{fault_count};
ghost use Rattle.world.specs.Moments.{Told};
ghost use Rattle.world.specs.Parts.{OnWire};
ghost use Rattle.world.specs.Places.{place_of, IsUnused, OnlyUp};
ghost use Rattle.world.specs.Rises.{clipped};
ghost use Rattle.world.specs.Told.{Adds, AreDifferent, read_entry, GotSome, write_entry, PutSome};
ghost use Rattle.world.specs.Waits.{wait_count};

use crate::{Conn, Connected, Did, Got, Journal, Put, Reports};

/// Connections on this machine, at most four to each of 16 jobs, none of which ever blocks.
pub trait Wire: Journal {
    /// How many calls of this trait have failed, up to the last value of a `u64`: the journal's
    /// count, where it is told.
    fn net_faults(&self) -> u64
        ensures is { result ≡ (Self.counts self.now).net }
        ensures told { IfSome (Self.journal self.now)
            (λ past. result ≡ clipped (fault_count OnWire past)) };

    /// How often `wait` was called, up to the last value of a `u64`: the journal's count, where it
    /// is told.
    fn waits(&self) -> u64
        ensures is { result ≡ (Self.counts self.now).waits }
        ensures told { IfSome (Self.journal self.now)
            (λ past. result ≡ clipped (wait_count past)) };

    /// Five different ports above 0, for shell, iopub, stdin, control and heartbeat.
    fn free_ports(&mut self, job: u8) -> Option<[u16; 5]>
        requires { job < 16 }
        ensures above { IfSome result (λ ports. All (λ port. 0 < port) ports) }
        ensures different { IfSome result AreDifferent }
        ensures tells { Adds Self.journal self.old self.new (Entry.Ports job result) }
        ensures cause { CountsBy NetCause Self.counts self.old self.new (result ≡ None) };

    /// Begins the connection to this port of this machine.
    fn connect(&mut self, conn: Conn, port: u16) -> Connected
        requires { conn.job < 16 }
        ensures tells { Adds Self.journal self.old self.new (Entry.Connected conn port result) }
        ensures cause { CountsBy NetCause Self.counts self.old self.new
            (result ≡ Connected.Failed) };

    /// Reads what has come, up to the length of the buffer.
    /// `Refused` comes only before a byte has passed.
    fn read(&mut self, conn: Conn, buf: &mut [u8]) -> Got
        requires job { conn.job < 16 }
        requires room { 0 < length buf.old }
        ensures some { GotSome result (length buf.old) }
        ensures tells { Adds Self.journal self.old self.new
            (read_entry conn (length buf.old) result buf.new) }
        ensures cause { CountsBy NetCause Self.counts self.old self.new (result ≡ Got.Failed) }
        ensures refused { Told (Self.journal self.old) (Self.journal self.new)
            (λ before _. result ≡ Got.Refused → IsUnused (place_of conn) before) };

    /// Writes the first bytes of the piece. `Refused` comes only before a byte has passed.
    fn write(&mut self, conn: Conn, piece: &[u8]) -> Put
        requires job { conn.job < 16 }
        requires some { 0 < length piece.now }
        ensures some { PutSome result (length piece.now) }
        ensures tells { Adds Self.journal self.old self.new (write_entry conn result piece.now) }
        ensures cause { CountsBy NetCause Self.counts self.old self.new (result ≡ Put.Failed) }
        ensures refused { Told (Self.journal self.old) (Self.journal self.new)
            (λ before _. result ≡ Put.Refused → IsUnused (place_of conn) before) };

    /// Closes the connection.
    fn close(&mut self, conn: Conn)
        requires { conn.job < 16 }
        ensures tells { Adds Self.journal self.old self.new (Entry.Closed conn) }
        ensures same { Self.counts self.new ≡ Self.counts self.old };

    /// Waits at most `ms` milliseconds, and reports the connections on which reading or writing may
    /// go on since they were last dry or stuck. Only connections that are up are reported, and none
    /// after a failure.
    fn wait(&mut self, ms: u32, out: &mut Reports) -> Did
        ensures failed { result ≡ Did.Failed → out.new.ready ≡ replicate 64 false }
        ensures tells { Adds Self.journal self.old self.new (Entry.Waited ms out.new result) }
        ensures cause { CountsBy WaitCause Self.counts self.old self.new (result ≡ Did.Failed) }
        ensures up { Told (Self.journal self.old) (Self.journal self.new)
            (λ before _. OnlyUp out.new.ready before) };
}
