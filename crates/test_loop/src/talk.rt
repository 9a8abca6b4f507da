//! A world that talks back on one connection, and tells no journal: bytes come and are taken in small
//! pieces, until the other side ends the connection.
ghost use Rattle.std.specs.Prelude.{◌≤◌, ◌+◌, ◌-◌};

use samples::{BareWorld, Talk};

/// A world that talks back on the shell of job 0, whose clock goes on 100 ms each time.
pub(crate) type TalkWorld = BareWorld<Drops>;

/// The world in which nothing came and nothing was put.
pub(crate) fn talk_world() -> TalkWorld {
    BareWorld::new(Drops::new(), 100)
}

/// Two bytes come, one a read; every other write takes up to three bytes.
#[derive(Drop)]
pub(crate) struct Drops {
    put: [u8; 16],
    put_len: usize,
    came: u8,
    took: bool,
    /// Whether it has ended the connection.
    pub(crate) ends: bool,
    ghost within: { put_len ≤ 16 },
}

impl Drops {
    fn new() -> Drops {
        Drops {
            put: [0; 16],
            put_len: 0,
            came: 0,
            took: false,
            ends: false,
        }
    }

    /// Whether these bytes were put.
    pub(crate) fn has_put(&self, bytes: &[u8]) -> bool {
        &self.put[..self.put_len] == bytes
    }
}

impl Talk for Drops {
    fn give(&mut self, buf: &mut [u8]) -> usize {
        if self.came >= 2 {
            return 0;
        }
        self.came += 1;
        buf[0] = self.came;
        1
    }

    fn take(&mut self, piece: &[u8]) -> usize {
        if self.took || self.put_len >= 13 {
            self.took = false;
            return 0;
        }
        self.took = true;
        let n = piece.len().min(3);
        let start = self.put_len.min(13);
        let mut put = self.put;
        for i in 0..n {
            put[start + i] = piece[i];
        }
        self.put = put;
        self.put_len = start + n;
        n
    }

    fn has_ended(&self) -> bool {
        self.ends
    }

    fn wake(&mut self) {}
}
