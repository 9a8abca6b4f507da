//! The other side of the shell of job 0, which has bytes after each wait and takes all that is
//! written to it.
use samples::{BareWorld, Talk};

/// The most bytes that a write takes at once.
const MOST_TAKEN: usize = 65_536;

/// A world whose clock stands, in which so many bytes come after each wait.
pub fn spouting(amount: usize) -> BareWorld<Spout> {
    BareWorld::new(
        Spout {
            amount,
            left: amount,
        },
        0,
    )
}

/// So many bytes come after each wait.
#[derive(Drop)]
pub struct Spout {
    amount: usize,
    left: usize,
}

impl Talk for Spout {
    fn give(&mut self, buf: &mut [u8]) -> usize {
        let size = self.left.min(buf.len());
        buf[..size].fill(7);
        self.left -= size;
        size
    }

    fn take(&mut self, piece: &[u8]) -> usize {
        piece.len().min(MOST_TAKEN)
    }

    fn has_ended(&self) -> bool {
        false
    }

    fn wake(&mut self) {
        self.left = self.amount;
    }
}
