//! What the journal holds of each call.
use crate::{Conn, Connected, Did, ReadFile, Reports, Side};
use jtext::{Bytes, Fields, List, Text, Texts};

/// One call of the world and its answer.
#[derive(Debug, Drop)]
pub enum Entry {
    /// `Disk::read_file`, with the bytes that it found.
    Read {
        path: Text,
        most: u64,
        found: ReadFile,
    },
    /// `Disk::create`.
    Created {
        path: Text,
        did: Did,
    },
    /// `Disk::write`, with the bytes taken, or the whole piece where it failed.
    Wrote {
        path: Text,
        bytes: Bytes,
        did: Did,
    },
    /// `Disk::sync`.
    Synced {
        path: Text,
        did: Did,
    },
    /// `Disk::rename`.
    Renamed {
        from: Text,
        to: Text,
        did: Did,
    },
    /// `Disk::sync_dir`.
    DirSynced {
        dir: Text,
        did: Did,
    },
    /// `Disk::remove`.
    Removed {
        path: Text,
        did: Did,
    },
    /// `Wire::free_ports`.
    Ports {
        job: u8,
        ports: Option<[u16; 5]>,
    },
    /// `Wire::connect`.
    Connected {
        conn: Conn,
        port: u16,
        how: Connected,
    },
    /// `Wire::close`.
    Closed {
        conn: Conn,
    },
    /// `Wire::read` with bytes; `room` is the length of the buffer that was handed in.
    Got {
        conn: Conn,
        room: u64,
        bytes: Bytes,
    },
    /// `Wire::read` with nothing to read for now.
    Dry {
        conn: Conn,
    },
    /// `Wire::read` or `Wire::write` on a connection that the other side has ended.
    Ended {
        conn: Conn,
        by: Side,
    },
    /// `Wire::read` or `Wire::write` on a connection that was turned away before a byte passed.
    Refused {
        conn: Conn,
        by: Side,
    },
    /// `Wire::read` that failed.
    ReadFailed {
        conn: Conn,
    },
    /// `Wire::write`, with the bytes taken.
    Put {
        conn: Conn,
        bytes: Bytes,
    },
    /// `Wire::write` that could take no byte for now.
    Stuck {
        conn: Conn,
    },
    /// `Wire::write` that failed.
    PutFailed {
        conn: Conn,
    },
    /// `Wire::wait`.
    Waited {
        ms: u32,
        reports: Reports,
        did: Did,
    },
    /// `Kids::start`.
    Started {
        job: u8,
        argv: Texts,
        env: Fields,
        dir: Text,
        did: Did,
    },
    /// `Kids::look`.
    Looked {
        job: u8,
        status: Option<i32>,
    },
    /// `Kids::end`.
    Killed {
        job: u8,
    },
    /// `Clock::now`.
    Moment {
        ms: u64,
    },
    /// `Rand::word`.
    Word {
        word: Option<u64>,
    },
    /// `Say::write`, with the bytes taken, or the whole piece where it failed.
    Said {
        bytes: Bytes,
        did: Did,
    },
}

/// Entries, the oldest first.
pub type Entries = List<Entry>;
