//! `Standing`, what stands under a name, and what may be done there.
ghost use Rattle.std.specs.Prelude.{◌≡◌, ◌↔◌, IsOk, IfOk, IfErr, IsTrue};
ghost use Rattle.world_real.specs.Names as spec;

use crate::file_id::FileId;
use std::alloc::Global;
use std::fs::{Files, Metadata};
use std::io::ErrorKind;
use std::{fs, io};

/// The folder of what runs (proc(5)).
const PROCESSES: &str = "/proc/";

/// What stands under a name.
#[derive(Clone, Copy, Debug, Drop, PartialEq, Eq)]
pub(crate) enum Standing {
    /// Nothing.
    Nothing,
    /// This regular file.
    Regular(FileId),
    /// A folder, a link, a device, a pipe or a stream.
    Other,
}

impl Standing {
    /// Whether it is this file.
    pub(crate) fn is(self, file: FileId) -> bool
        ensures { IsTrue result ↔ (self ≡ Standing.Regular file) }
    {
        match self {
            Standing::Regular(there) => there == file,
            _ => false,
        }
    }
}

/// What stands under the name itself: a link is not followed.
pub(crate) fn standing_at<R: Files>(files: &R, path: &str) -> io::Result<Standing> {
    standing_of(fs::symlink_metadata(files, path))
}

/// What the name leads to. A link that leads to nothing has nothing behind it.
pub(crate) fn standing_behind<R: Files>(
    files: &R,
    alloc: Global,
    path: &str,
) -> io::Result<Standing> {
    if is_stream(files, alloc, path)? {
        return Ok(Standing::Other);
    }
    standing_of(fs::metadata(files, path))
}

// Whether the name is that of a stream of the process, as /dev/stdout is a link to /proc/self/fd/1
// (proc(5)). Behind it may stand a regular file, and yet the name isn't one of a file.
fn is_stream<R: Files>(files: &R, alloc: Global, path: &str) -> io::Result<bool> {
    match files.read_link(alloc, path) {
        Ok(link) => Ok(link.as_path().as_os_str().starts_with(PROCESSES)),
        Err(e) if e.kind() == ErrorKind::OutOfMemory => Err(e),
        Err(_) => Ok(false),
    }
}

// What stands there, by what the system says of the name.
fn standing_of(found: io::Result<Metadata>) -> io::Result<Standing>
    ensures found { IfOk found (λ there. spec.StandsFound there result) }
    ensures unfound { IfErr found (λ error. spec.StandsUnfound error result) }
{
    match found {
        Ok(there) if there.is_file() => Ok(Standing::Regular(FileId::of(&there))),
        Ok(_) => Ok(Standing::Other),
        Err(e) if e.kind() == ErrorKind::NotFound => Ok(Standing::Nothing),
        Err(e) => Err(e),
    }
}

/// Whether a file of ours may be renamed, where this stands under its name and its new name leads
/// to that: its name has to be its own still, and nothing is replaced but a regular file.
pub(crate) fn may_rename(ours: FileId, from: Standing, to: Standing) -> io::Result<()>
    ensures { IsOk result ↔ spec.MayRename ours from to }
{
    if !from.is(ours) {
        return Err(io::Error::new(ErrorKind::NotFound, "another run has replaced the file"));
    }
    match to {
        Standing::Other => Err(io::Error::new(
            ErrorKind::AlreadyExists,
            "what stands there is no regular file",
        )),
        _ => Ok(()),
    }
}
