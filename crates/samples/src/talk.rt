//! `Talk`, the other side of the one connection that talks.
ghost use Rattle.std.specs.Prelude.{◌≤◌, ◌<◌, length};

/// The other side of the shell of job 0.
pub trait Talk: Drop {
    /// Gives bytes, and says how many.
    fn give(&mut self, buf: &mut [u8]) -> usize
        requires { 0 < length buf.old }
        ensures { result ≤ length buf.old };

    /// Takes the first bytes of the piece, and says how many.
    fn take(&mut self, piece: &[u8]) -> usize
        requires { 0 < length piece.now }
        ensures { result ≤ length piece.now };

    /// Whether it has ended the connection.
    fn has_ended(&self) -> bool;

    /// A wait is over.
    fn wake(&mut self);
}
