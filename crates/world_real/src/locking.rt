//! The locks on the files that a world makes.
ghost use Rattle.std.specs.Prelude.{◌↔◌, IsErr};
ghost use Rattle.world_real.specs.Names.{IsHeldElsewhere};

use std::fs::{File, TryLockError};
use std::io;
use std::io::ErrorKind;

/// Locks the file for as long as it is open. It fails where another process holds the lock; the
/// system ends the locks of a process that was killed.
pub(crate) fn lock(file: &File) -> io::Result<()> {
    lock_of(file.try_lock())
}

// A disk that knows no locks is no reason to give up.
fn lock_of(tried: Result<(), TryLockError>) -> io::Result<()>
    ensures { IsErr result ↔ IsHeldElsewhere tried }
{
    match tried {
        Err(TryLockError::WouldBlock) => Err(io::Error::new(
            ErrorKind::ResourceBusy,
            "another run has the file in use",
        )),
        _ => Ok(()),
    }
}
