//! The making of new files.
ghost use Rattle.std.specs.Prelude.{◌≡◌, codes, nat_eq};
ghost use Rattle.std.specs.List.{ends_with};

use crate::file_id::FileId;
use crate::locking::lock;
use crate::standing::{Standing, standing_at};
use std::fs::{File, Files, OpenOptions};
use std::io::ErrorKind;
use std::os::unix::fs::OpenOptionsExt;
use std::{fs, io};

/// The end of the name of a connection file: the key in it lets whoever reads it run code.
const CONNECTION_FILE: &str = ".nbrun-kernel.json";

/// A file that its owner alone reads and writes.
const OWNER_ALONE: u32 = 0o600;

/// A file that others may read and write as far as the user's mask lets them.
const OF_ALL: u32 = 0o666;

/// Makes a new file in the place of what stands there, and locks it. No link is followed, and no
/// file that another run has locked is removed.
pub(crate) fn make<R: Files<File = File>>(files: &R, path: &str) -> io::Result<File> {
    clear(files, path)?;
    let mut options = OpenOptions::new();
    options.write(true).create_new(true).mode(mode_of(path));
    let file = options.open(files, path)?;
    lock_at(files, path, &file)?;
    Ok(file)
}

// The rights of a file that is made there.
fn mode_of(path: &str) -> u32 {
    if is_connection_file(path) {
        OWNER_ALONE
    } else {
        OF_ALL
    }
}

// Whether the path is that of a connection file.
fn is_connection_file(path: &str) -> bool
    ensures { result ≡ ends_with nat_eq path.now (codes ".nbrun-kernel.json") }
{
    path.as_bytes().ends_with(CONNECTION_FILE.as_bytes())
}

// Removes what stands there. A file is locked before: who holds its lock goes on undisturbed. It is
// opened for writing, since a disk of the network may lock no other.
fn clear<R: Files<File = File>>(files: &R, path: &str) -> io::Result<()> {
    match standing_at(files, path)? {
        Standing::Nothing => Ok(()),
        Standing::Other => fs::remove_file(files, path),
        Standing::Regular(_) => {
            let there = OpenOptions::new().read(true).write(true).open(files, path)?;
            lock_at(files, path, &there)?;
            fs::remove_file(files, path)
        }
    }
}

// Locks the file, whose name has to be its own still: another run may have locked and replaced it
// between.
fn lock_at<R: Files>(files: &R, path: &str, file: &File) -> io::Result<()> {
    lock(file)?;
    let ours = FileId::of(&file.metadata()?);
    if standing_at(files, path)?.is(ours) {
        return Ok(());
    }
    Err(io::Error::new(ErrorKind::ResourceBusy, "another run has the file in use"))
}
