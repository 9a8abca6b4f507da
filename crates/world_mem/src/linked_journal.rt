//! A journal with a clock, and which connections are up by it.
ghost use Rattle.std.specs.Prelude.{◌≡◌, ◌∷◌, ◌<◌, ◌^◌, [], IfOk, IsOkAnd, None, Some};
ghost use Rattle.std.specs.Prelude.{false, length, option_map, replicate, slice_set, MatchResult};
ghost use Rattle.world.specs.declared.entry.Entry.{Entry};
ghost use Rattle.world.specs.Moments.{Told, Tells};
ghost use Rattle.world.specs.Places.{place_of};
ghost use Rattle.world.specs.Told.{read_entry, write_entry, GotSome};
ghost use Rattle.world.specs.Waits.{moment_of};
ghost use Rattle.world_mem.specs.Journals.{told_of};
ghost use Rattle.world_mem.specs.Links.{conn_of, is_up, ups_after, ups_told};
ghost use Rattle.world_mem.specs.Wire.{put_by};

use crate::{TimedJournal, telling};
use jtext::NoMemory;
use std::alloc::Global;
use world::{Chan, Conn, Connected, Did, Entries, Entry, Got, Side};

/// A journal that is told until memory for an entry is refused, the clock's last moment, and which
/// of the 64 connections are up: begun, and since neither ended, refused nor closed.
#[derive(Drop)]
pub(crate) struct LinkedJournal {
    timed: TimedJournal,
    ups: [bool; 64],
    ghost linked: { ups_told (told_of timed.entries) ups ≡ ups },
}

impl LinkedJournal {
    /// A journal with no entry yet; no connection is up and the last moment is 0.
    pub(crate) fn new(alloc: Global) -> LinkedJournal
        ensures told { told_of result.timed.entries ≡ Some [] }
        ensures moment { result.timed.last ≡ 0 }
        ensures ups { result.ups ≡ replicate 64 false }
    {
        LinkedJournal {
            timed: TimedJournal::new(alloc),
            ups: [false; 64],
        }
    }

    /// The entries so far, the oldest first, and `None` where they are no longer told.
    pub(crate) fn entries(&self) -> Option<&Entries>
        ensures { option_map (λ entries. entries.now) result ≡ self.now.timed.entries }
    {
        self.timed.entries()
    }

    /// The last moment.
    pub(crate) fn last(&self) -> u64
        ensures bound { result < 2 ^ 47 }
        ensures is { result ≡ self.now.timed.last }
    {
        self.timed.last()
    }

    /// Whether a connection is up.
    pub(crate) fn is_up(&self, conn: Conn) -> bool
        ensures { result ≡ is_up self.now.ups conn }
    {
        match self.ups.get(place_of(conn)) {
            Some(up) => *up,
            None => false,
        }
    }

    /// Adds an entry of any call but the clock's, or ends the telling. Which connections are up
    /// goes by the entry, also where it is not told.
    pub(crate) fn tell(&mut self, entry: Result<Entry, NoMemory>)
        requires { IfOk entry (λ e. moment_of e ≡ None) }
        ensures tells { Told (told_of self.old.timed.entries) (told_of self.new.timed.entries)
            (λ before after. IsOkAnd entry (λ e. after ≡ e ∷ before)) }
        ensures ups { MatchResult entry (λ e. self.new.ups ≡ ups_after e self.old.ups)
            (λ _. self.new.ups ≡ self.old.ups) }
        ensures same { self.new.timed.last ≡ self.old.timed.last }
    {
        if let Ok(entry) = &entry {
            link(&mut self.ups, entry);
        }
        self.timed.tell(entry);
    }

    /// Adds the entry of a read that answered so, or ends the telling.
    pub(crate) fn tell_read(&mut self, alloc: Global, conn: Conn, buf: &[u8], got: Got)
        requires { GotSome got (length buf.now) }
        ensures tells { Tells (told_of self.old.timed.entries) (told_of self.new.timed.entries)
            (read_entry conn (length buf.now) got buf.now) }
        ensures ups { self.new.ups
            ≡ ups_after (read_entry conn (length buf.now) got buf.now) self.old.ups }
        ensures same { self.new.timed.last ≡ self.old.timed.last }
    {
        match got {
            Got::Piece(n) => self.tell(telling::got_entry(alloc, conn, buf.len(), &buf[..n])),
            Got::Dry => self.tell(Ok(Entry::Dry { conn })),
            Got::Ended => self.tell(Ok(Entry::Ended {
                conn,
                by: Side::Read,
            })),
            Got::Refused => self.tell(Ok(Entry::Refused {
                conn,
                by: Side::Read,
            })),
            Got::Failed => self.tell(Ok(Entry::ReadFailed { conn })),
        }
    }

    /// Adds the entry of a write that took the whole piece or failed, or ends the telling.
    pub(crate) fn tell_put(&mut self, alloc: Global, conn: Conn, piece: &[u8], did: Did)
        ensures tells { Tells (told_of self.old.timed.entries) (told_of self.new.timed.entries)
            (write_entry conn (put_by did (length piece.now)) piece.now) }
        ensures ups { self.new.ups ≡ self.old.ups }
        ensures same { self.new.timed.last ≡ self.old.timed.last }
    {
        match did {
            Did::Done => self.tell(telling::put_entry(alloc, conn, piece)),
            Did::Failed => self.tell(Ok(Entry::PutFailed { conn })),
        }
    }

    /// Adds an entry of the clock, or ends the telling.
    pub(crate) fn tell_moment(&mut self, ms: u64)
        requires { ms < 2 ^ 47 }
        ensures tells { Tells (told_of self.old.timed.entries) (told_of self.new.timed.entries)
            (Entry.Moment ms) }
        ensures ups { self.new.ups ≡ self.old.ups }
        ensures is { self.new.timed.last ≡ ms }
    {
        self.timed.tell_moment(ms);
    }
}

/// The place of a connection among the 64 of the first 16 jobs.
pub(crate) fn place_of(conn: Conn) -> usize
    ensures { result ≡ place_of conn }
{
    4 * conn.job as usize + conn.chan as usize
}

/// The connection at a place.
pub(crate) fn conn_at(place: usize) -> Conn
    requires { place < 64 }
    ensures is { result ≡ conn_of place }
    ensures place { place_of result ≡ place }
{
    let chan = match place % 4 {
        0 => Chan::Shell,
        1 => Chan::Control,
        2 => Chan::Iopub,
        _ => Chan::Heart,
    };
    Conn {
        job: (place / 4) as u8,
        chan,
    }
}

// Marks the connection that an entry begins or ends.
fn link(ups: &mut [bool; 64], entry: &Entry)
    ensures { ups.new ≡ ups_after entry.now ups.old }
{
    match entry {
        Entry::Connected {
            conn,
            how: Connected::Begun,
            ..
        } => mark(ups, *conn, true),
        Entry::Connected {
            conn,
            how: Connected::Refused,
            ..
        } => mark(ups, *conn, false),
        Entry::Closed { conn } | Entry::Ended { conn, .. } | Entry::Refused { conn, .. } => {
            mark(ups, *conn, false)
        }
        _ => {}
    }
}

// Sets whether a connection is up.
fn mark(ups: &mut [bool; 64], conn: Conn, up: bool)
    ensures { ups.new ≡ slice_set ups.old (place_of conn) up }
{
    let place = place_of(conn);
    if place < 64 {
        ups[place] = up;
    }
}
