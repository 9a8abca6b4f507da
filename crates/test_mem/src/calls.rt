//! Calls on connections, over any world.
ghost use Rattle.std.specs.Prelude.{◌<◌, length};

use world::{Conn, Connected, Did, Got, Put, Reports, Wire};

/// No connection.
pub(crate) const NONE: Reports = Reports { ready: [false; 64] };

/// Begins a connection.
pub(crate) fn connect<W: Wire>(w: &mut W, conn: Conn, port: u16) -> Connected
    requires { conn.job < 16 }
{
    w.connect(conn, port)
}

/// Whether the reads of a connection give just so many bytes each, and then nothing.
pub(crate) fn gives<W: Wire>(w: &mut W, conn: Conn, buf: &mut [u8], sizes: &[usize]) -> bool
    requires job { conn.job < 16 }
    requires room { 0 < length buf.old }
{
    for size in sizes {
        if w.read(conn, buf) != Got::Piece(*size) {
            return false;
        }
    }
    w.read(conn, buf) == Got::Dry
}

/// Writes three bytes to a connection.
pub(crate) fn put<W: Wire>(w: &mut W, conn: Conn) -> Put
    requires { conn.job < 16 }
{
    w.write(conn, b"abc")
}

/// Closes a connection.
pub(crate) fn close<W: Wire>(w: &mut W, conn: Conn)
    requires { conn.job < 16 }
{
    w.close(conn);
}

/// What a wait reports, and `None` where it fails.
pub(crate) fn wait<W: Wire>(w: &mut W, ms: u32) -> Option<Reports> {
    let mut reports = NONE;
    match w.wait(ms, &mut reports) {
        Did::Done => Some(reports),
        Did::Failed => None,
    }
}

/// Whether a wait reports just the connections of these places.
pub(crate) fn reports<W: Wire>(w: &mut W, ms: u32, places: &[usize]) -> bool {
    let mut ready = [false; 64];
    for place in places {
        if *place < 64 {
            ready[*place] = true;
        }
    }
    wait(w, ms) == Some(Reports { ready })
}
