//! The 64 places of the connections of 16 jobs.
ghost use Rattle.std.specs.Prelude.{◌≡◌, ◌<◌};
ghost use Rattle.world.specs.Places.{place_of};

use world::{Chan, Conn};

/// The connection at a place.
pub fn conn_at(place: usize) -> Conn
    requires { place < 64 }
    ensures place { place_of result ≡ place }
    ensures job { result.job < 16 }
{
    let job = (place / 4) as u8;
    let chan = match place % 4 {
        0 => Chan::Shell,
        1 => Chan::Control,
        2 => Chan::Iopub,
        _ => Chan::Heart,
    };
    Conn { job, chan }
}

/// The place of a connection.
pub fn place_at(conn: Conn) -> usize
    requires { conn.job < 16 }
    ensures within { result < 64 }
    ensures place { result ≡ place_of conn }
{
    let chan = match conn.chan {
        Chan::Shell => 0,
        Chan::Control => 1,
        Chan::Iopub => 2,
        Chan::Heart => 3,
    };
    4 * usize::from(conn.job) + chan
}
