//! One connection.
ghost use Rattle.std.specs.Prelude.{◌≡◌, ◌⊎◌, true, false, length};
ghost use Rattle.world.specs.Told.{GotSome, PutSome};
ghost use Rattle.world_real.specs.Answers.{has_got, has_put};

use crate::answers::{got_of, put_of};
use mio::net::TcpStream;
use std::io::{Read, Write};
use world::{Got, Put};

/// A connection that was begun.
#[derive(Drop)]
pub(crate) struct Link {
    stream: TcpStream,
    // A byte was got or taken.
    used: bool,
    // The other side has ended it.
    ended: bool,
}

impl Link {
    /// A connection on which nothing has passed.
    pub(crate) fn new(stream: TcpStream) -> Link
        ensures { result.used ≡ false }
    {
        Link {
            stream,
            used: false,
            ended: false,
        }
    }

    /// Whether a byte was got or taken.
    pub(crate) fn is_used(&self) -> bool
        ensures { result ≡ self.now.used }
    {
        self.used
    }

    /// Whether it may be reported.
    pub(crate) fn is_up(&self) -> bool {
        !self.ended
    }

    /// Reads what has come, up to the length of the buffer.
    pub(crate) fn read(&mut self, buf: &mut [u8]) -> Got
        ensures some { GotSome result (length buf.old) }
        ensures refused { result ≡ Got.Refused → self.old.used ≡ false }
        ensures used { self.new.used ≡ true → (self.old.used ≡ true) ⊎ (has_got result ≡ true) }
        ensures kept { (self.old.used ≡ true) ⊎ (has_got result ≡ true) → self.new.used ≡ true }
    {
        let got = got_of(self.stream.read(buf), self.used);
        match got {
            Got::Piece(_) => self.used = true,
            Got::Ended => self.ended = true,
            _ => {}
        }
        got
    }

    /// Writes the first bytes of the piece.
    pub(crate) fn write(&mut self, piece: &[u8]) -> Put
        ensures some { PutSome result (length piece.now) }
        ensures refused { result ≡ Put.Refused → self.old.used ≡ false }
        ensures used { self.new.used ≡ true → (self.old.used ≡ true) ⊎ (has_put result ≡ true) }
        ensures kept { (self.old.used ≡ true) ⊎ (has_put result ≡ true) → self.new.used ≡ true }
    {
        let put = put_of(self.stream.write(piece), self.used);
        match put {
            Put::Took(_) => self.used = true,
            Put::Ended => self.ended = true,
            _ => {}
        }
        put
    }
}
