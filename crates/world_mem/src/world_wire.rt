//! The connections of a world in memory.
ghost use Rattle.std.specs.Prelude.{◌≡◌, ◌<◌, ◌||◌, ◌&&◌, All, IfSome, None, false, length};
ghost use Rattle.std.specs.Prelude.{replicate};
ghost use Rattle.world.specs.declared.conn.Conn.{Conn};
ghost use Rattle.world.specs.declared.entry.Entry.{Entry};
ghost use Rattle.world.specs.Calls.{Accepted, Gave, Took, StandsAfter};
ghost use Rattle.world.specs.Counts.{CountsBy, HasCause, NetCause, WaitCause};
ghost use Rattle.world.specs.Kernel.{Over};
ghost use Rattle.world.specs.Moments.{Told};
ghost use Rattle.world.specs.Places.{is_reported, place_of, status, IsUnused, OnlyUp};
ghost use Rattle.world.specs.Told.{Adds, AreDifferent, read_entry, GotSome, write_entry, PutSome};
ghost use Rattle.world_mem.specs.Far.{at_job, is_ready, ServesUnless, Ticks, TookIf};
ghost use Rattle.world_mem.specs.Links.{is_up, ups_after};
ghost use Rattle.world_mem.specs.Near.{count_call, journal_of, counts_of, AfterNet, AfterConnect};
ghost use Rattle.world_mem.specs.Near.{AfterPut, AfterRead, AfterWait};
ghost use Rattle.world_mem.specs.Store.{is_to_fail, FailsOrStarves};
ghost use Rattle.world_mem.specs.Wire.{clock_by, connected_by, did_put, is_refusing, ports_of};
ghost use Rattle.world_mem.specs.Wire.{ports_unless, put_by, room_of, ReadAs};

use crate::MemWorld;
use crate::count::rise_by;
use crate::far::Far;
use crate::near::Near;
use world::{Conn, Connected, Did, Entry, Give, Got, KernelSide, Put, Reports, Wire, World};

// The clauses of the trait, and what this world answers.
impl<K: KernelSide> Wire for MemWorld<K> {
    fn net_faults(&self) -> u64 {
        self.near.net_faults
    }

    fn waits(&self) -> u64 {
        self.near.waits
    }

    fn free_ports(&mut self, job: u8) -> Option<[u16; 5]>
        requires { job < 16 }
        ensures above { IfSome result (λ ports. All (λ port. 0 < port) ports) }
        ensures different { IfSome result AreDifferent }
        ensures tells { Adds journal_of self.old.near self.new.near (Entry.Ports job result) }
        ensures cause { CountsBy NetCause counts_of self.old.near self.new.near (result ≡ None) }
        ensures is { result ≡ ports_unless (is_to_fail self.old.near.store) job }
        ensures near { AfterNet self.old.near self.new.near }
        ensures ups { self.new.near.journal.ups ≡ self.old.near.journal.ups }
        ensures far { self.new.far ≡ self.old.far }
    {
        let ports = if self.near.fails_net() {
            None
        } else {
            Some(ports_of(job))
        };
        self.near.journal.tell(Ok(Entry::Ports { job, ports }));
        ports
    }

    fn connect(&mut self, conn: Conn, port: u16) -> Connected
        requires { conn.job < 16 }
        ensures tells { Adds journal_of self.old.near self.new.near
            (Entry.Connected conn port result) }
        ensures cause { CountsBy NetCause counts_of self.old.near self.new.near
            (result ≡ Connected.Failed) }
        ensures is { result ≡ connected_by (is_to_fail self.old.near.store)
            (is_refusing self.old.near.refusals) (at_job self.old.far.kernels.items conn.job false
            (λ k. K.accepts k conn.chan self.old.far.clock)) }
        ensures kernels { ServesUnless
            (is_to_fail self.old.near.store || is_refusing self.old.near.refusals)
            self.old.far.kernels.items self.new.far.kernels.items conn.job
            (λ before after. StandsAfter (K.stands before) (K.stands after) (Accepted conn.chan
            self.old.far.clock (K.accepts before conn.chan self.old.far.clock))) }
        ensures started { self.new.far.started ≡ self.old.far.started }
        ensures clock { self.new.far.clock ≡ self.old.far.clock }
        ensures near { AfterConnect self.old.near self.new.near }
        ensures ups { self.new.near.journal.ups
            ≡ ups_after (Entry.Connected conn port result) self.old.near.journal.ups }
    {
        let how = self.far.try_connect(&mut self.near, conn);
        self.near
            .journal
            .tell(Ok(Entry::Connected { conn, port, how }));
        how
    }

    fn read(&mut self, conn: Conn, buf: &mut [u8]) -> Got
        requires job { conn.job < 16 }
        requires room { 0 < length buf.old }
        ensures some { GotSome result (length buf.old) }
        ensures tells { Adds journal_of self.old.near self.new.near
            (read_entry conn (length buf.old) result buf.new) }
        ensures cause { CountsBy NetCause counts_of self.old.near self.new.near
            (result ≡ Got.Failed) }
        ensures refused { Told (journal_of self.old.near) (journal_of self.new.near)
            (λ before _. result ≡ Got.Refused → IsUnused (place_of conn) before) }
        ensures is { let room = room_of self.old.near.pieces self.old.near.turn (length buf.old) in
            ReadAs (is_to_fail self.old.near.store) (at_job self.old.far.kernels.items conn.job Over
            (λ k. K.gives k conn.chan self.old.far.clock room)) result buf.new }
        ensures kernels { let room = room_of self.old.near.pieces self.old.near.turn
            (length buf.old) in
            ServesUnless (is_to_fail self.old.near.store)
            self.old.far.kernels.items self.new.far.kernels.items conn.job
            (λ before after. StandsAfter (K.stands before) (K.stands after)
            (Gave conn.chan self.old.far.clock room
            (K.gives before conn.chan self.old.far.clock room))) }
        ensures started { self.new.far.started ≡ self.old.far.started }
        ensures clock { self.new.far.clock ≡ self.old.far.clock }
        ensures near { AfterRead self.old.near self.new.near }
        ensures ups { self.new.near.journal.ups ≡ ups_after
            (read_entry conn (length buf.old) result buf.new) self.old.near.journal.ups }
    {
        let got = self.far.try_read(&mut self.near, conn, buf);
        self.near.journal.tell_read(self.near.alloc, conn, buf, got);
        got
    }

    fn write(&mut self, conn: Conn, piece: &[u8]) -> Put
        requires job { conn.job < 16 }
        requires some { 0 < length piece.now }
        ensures some { PutSome result (length piece.now) }
        ensures tells { Adds journal_of self.old.near self.new.near
            (write_entry conn result piece.now) }
        ensures cause { CountsBy NetCause counts_of self.old.near self.new.near
            (result ≡ Put.Failed) }
        ensures refused { Told (journal_of self.old.near) (journal_of self.new.near)
            (λ before _. result ≡ Put.Refused → IsUnused (place_of conn) before) }
        ensures is { result ≡ put_by (did_put result) (length piece.now) }
        ensures fails { FailsOrStarves (is_to_fail self.old.near.store)
            self.old.near.store self.new.near.store (did_put result) }
        ensures kernels { ServesUnless (is_to_fail self.old.near.store)
            self.old.far.kernels.items self.new.far.kernels.items conn.job
            (λ before after. TookIf (did_put result) (StandsAfter (K.stands before)
            (K.stands after) (Took conn.chan self.old.far.clock piece.now))) }
        ensures started { self.new.far.started ≡ self.old.far.started }
        ensures clock { self.new.far.clock ≡ self.old.far.clock }
        ensures near { AfterPut self.old.near self.new.near (did_put result) }
        ensures ups { self.new.near.journal.ups ≡ self.old.near.journal.ups }
    {
        let did = self.far.try_put(&mut self.near, conn, piece);
        self.near
            .journal
            .tell_put(self.near.alloc, conn, piece, did);
        match did {
            Did::Done => Put::Took(piece.len()),
            Did::Failed => Put::Failed,
        }
    }

    fn close(&mut self, conn: Conn)
        requires { conn.job < 16 }
        ensures tells { Adds journal_of self.old.near self.new.near (Entry.Closed conn) }
        ensures same { counts_of self.new.near ≡ counts_of self.old.near }
        ensures near { self.new.near ≡ record self.old.near {
          journal = self.new.near.journal;
          store = count_call self.old.near.store;
        } }
        ensures ups { self.new.near.journal.ups
            ≡ ups_after (Entry.Closed conn) self.old.near.journal.ups }
        ensures far { self.new.far ≡ self.old.far }
    {
        self.near.store.count_call();
        self.near.journal.tell(Ok(Entry::Closed { conn }));
    }

    fn wait(&mut self, ms: u32, out: &mut Reports) -> Did
        ensures failed { result ≡ Did.Failed → out.new.ready ≡ replicate 64 false }
        ensures tells { Adds journal_of self.old.near self.new.near
            (Entry.Waited ms out.new result) }
        ensures cause { CountsBy WaitCause counts_of self.old.near self.new.near
            (result ≡ Did.Failed) }
        ensures up { Told (journal_of self.old.near) (journal_of self.new.near)
            (λ before _. OnlyUp out.new.ready before) }
        ensures fails { FailsOrStarves (is_to_fail self.old.near.store)
            self.old.near.store self.new.near.store result }
        ensures ticks { result ≡ Did.Done → Ticks K.stands self.old.far.started
            self.old.far.clock self.old.far.kernels.items self.new.far.kernels.items }
        ensures reports { result ≡ Did.Done → (conn : Conn) → conn.job < 16 →
            is_reported (place_of conn) out.new.ready ≡ (is_up self.old.near.journal.ups conn
            && is_ready K.gives self.new.far.kernels.items self.old.far.clock conn) }
        // By the journal: exactly the connections that are up and have something to read.
        ensures exact { Told (journal_of self.old.near) (journal_of self.new.near) (λ before _.
            result ≡ Did.Done → (conn : Conn) → conn.job < 16 →
            is_reported (place_of conn) out.new.ready ≡ ((status (place_of conn) before).up
            && is_ready K.gives self.new.far.kernels.items self.old.far.clock conn)) }
        ensures started { self.new.far.started ≡ self.old.far.started }
        ensures clock { self.new.far.clock
            ≡ clock_by result out.new.ready self.old.far.clock ms }
        ensures near { AfterWait self.old.near self.new.near result }
        ensures ups { self.new.near.journal.ups ≡ self.old.near.journal.ups }
    {
        let did = self.far.try_wait(&mut self.near, ms, out);
        let reports = *out;
        self.near
            .journal
            .tell(Ok(Entry::Waited { ms, reports, did }));
        did
    }
}

impl<K: KernelSide> World for MemWorld<K> {}

impl<K: KernelSide> Far<K> {
    // Whether a connection is taken up.
    fn try_connect(&mut self, near: &mut Near, conn: Conn) -> Connected
        ensures is { result ≡ connected_by (is_to_fail near.old.store)
            (is_refusing near.old.refusals) (at_job self.old.kernels.items conn.job false
            (λ k. K.accepts k conn.chan self.old.clock)) }
        ensures kernels { ServesUnless
            (is_to_fail near.old.store || is_refusing near.old.refusals)
            self.old.kernels.items self.new.kernels.items conn.job
            (λ before after. StandsAfter (K.stands before) (K.stands after) (Accepted conn.chan
            self.old.clock (K.accepts before conn.chan self.old.clock))) }
        ensures started { self.new.started ≡ self.old.started }
        ensures clock { self.new.clock ≡ self.old.clock }
        ensures near { AfterConnect near.old near.new }
        ensures cause { HasCause near.old.net_faults near.new.net_faults
            (result ≡ Connected.Failed) }
        ensures journal { near.new.journal ≡ near.old.journal }
    {
        let refuses = near.refuses();
        if near.fails_net() {
            return Connected::Failed;
        }
        if refuses {
            return Connected::Refused;
        }
        if self.accept(conn) {
            Connected::Begun
        } else {
            Connected::Refused
        }
    }

    // What stands ready on a connection.
    fn try_read(&mut self, near: &mut Near, conn: Conn, buf: &mut [u8]) -> Got
        requires { 0 < length buf.old }
        ensures some { GotSome result (length buf.old) }
        ensures is { let room = room_of near.old.pieces near.old.turn (length buf.old) in
            ReadAs (is_to_fail near.old.store) (at_job self.old.kernels.items conn.job Over
            (λ k. K.gives k conn.chan self.old.clock room)) result buf.new }
        ensures kernels { let room = room_of near.old.pieces near.old.turn (length buf.old) in
            ServesUnless (is_to_fail near.old.store)
            self.old.kernels.items self.new.kernels.items conn.job
            (λ before after. StandsAfter (K.stands before) (K.stands after)
            (Gave conn.chan self.old.clock room
            (K.gives before conn.chan self.old.clock room))) }
        ensures started { self.new.started ≡ self.old.started }
        ensures clock { self.new.clock ≡ self.old.clock }
        ensures near { AfterRead near.old near.new }
        ensures cause { HasCause near.old.net_faults near.new.net_faults (result ≡ Got.Failed) }
        ensures journal { near.new.journal ≡ near.old.journal }
    {
        let room = near.room(buf.len());
        if near.fails_net() {
            return Got::Failed;
        }
        match self.give(conn, &mut buf[..room]) {
            Give::Bytes(n) => Got::Piece(n),
            Give::Nothing => Got::Dry,
            Give::Ended => Got::Ended,
        }
    }

    // Hands a piece to a kernel.
    fn try_put(&mut self, near: &mut Near, conn: Conn, piece: &[u8]) -> Did
        ensures fails { FailsOrStarves (is_to_fail near.old.store)
            near.old.store near.new.store result }
        ensures kernels { ServesUnless (is_to_fail near.old.store)
            self.old.kernels.items self.new.kernels.items conn.job
            (λ before after. TookIf result (StandsAfter (K.stands before) (K.stands after)
            (Took conn.chan self.old.clock piece.now))) }
        ensures started { self.new.started ≡ self.old.started }
        ensures clock { self.new.clock ≡ self.old.clock }
        ensures near { AfterPut near.old near.new result }
        ensures cause { HasCause near.old.net_faults near.new.net_faults (result ≡ Did.Failed) }
        ensures journal { near.new.journal ≡ near.old.journal }
    {
        let did = self.hand(near, conn, piece);
        rise_by(&mut near.net_faults, did);
        did
    }

    // Hands a piece to a kernel, and counts no fault.
    fn hand(&mut self, near: &mut Near, conn: Conn, piece: &[u8]) -> Did
        ensures fails { FailsOrStarves (is_to_fail near.old.store)
            near.old.store near.new.store result }
        ensures kernels { ServesUnless (is_to_fail near.old.store)
            self.old.kernels.items self.new.kernels.items conn.job
            (λ before after. TookIf result (StandsAfter (K.stands before) (K.stands after)
            (Took conn.chan self.old.clock piece.now))) }
        ensures started { self.new.started ≡ self.old.started }
        ensures clock { self.new.clock ≡ self.old.clock }
        ensures near { near.new ≡ record near.old {
          store = record (count_call near.old.store) { starved = near.new.store.starved };
        } }
    {
        if near.store.fails_now() {
            return Did::Failed;
        }
        match self.take(near.alloc, conn, piece) {
            Ok(()) => Did::Done,
            Err(_) => near.store.starve(),
        }
    }
}

// The ports of a job.
fn ports_of(job: u8) -> [u16; 5]
    requires { job < 16 }
    ensures { result ≡ ports_of job }
{
    let first = 5 * job as u16;
    [
        1001 + first,
        1002 + first,
        1003 + first,
        1004 + first,
        1005 + first,
    ]
}
