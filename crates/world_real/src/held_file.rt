//! `HeldFile`, a file that the world has made.
ghost use Rattle.std.specs.Prelude.{◌≡◌, ◌≤◌, length, IfOk};

use crate::file_id::FileId;
use crate::making::make;
use crate::standing::{may_rename, standing_at, standing_behind};
use jtext::Text;
use std::alloc::Global;
use std::fs::{File, Files};
use std::io::{ErrorKind, Write};
use std::{fs, io};

/// A file that the world has made, under the name that it has. It is open and locked.
#[derive(Drop)]
pub(crate) struct HeldFile {
    path: Text,
    file: File,
    id: FileId,
}

impl HeldFile {
    /// A new file in the place of what stands there.
    pub(crate) fn make<R: Files<File = File>>(files: &R, path: Text) -> io::Result<HeldFile>
        ensures { IfOk result (λ held. held.path ≡ path) }
    {
        let file = make(files, path.as_str())?;
        let id = FileId::of(&file.metadata()?);
        Ok(HeldFile { path, file, id })
    }

    /// Whether it has that name.
    pub(crate) fn has_name(&self, path: &str) -> bool {
        self.path.as_str() == path
    }

    /// How many bytes of the piece were put at its end.
    pub(crate) fn write(&mut self, piece: &[u8]) -> io::Result<usize>
        ensures bound { IfOk result (λ n. n ≤ length piece.now) }
        ensures name { self.new.path ≡ self.old.path }
    {
        self.file.write(piece)
    }

    /// Makes its bytes durable.
    pub(crate) fn sync(&self) -> io::Result<()> {
        self.file.sync_all()
    }

    /// Gives it that name.
    pub(crate) fn rename<R: Files>(&self, files: &R, alloc: Global, to: &str) -> io::Result<()> {
        let from = standing_at(files, self.path.as_str())?;
        may_rename(self.id, from, standing_behind(files, alloc, to)?)?;
        fs::rename(files, self.path.as_str(), to)
    }

    /// Removes its name, where that is its own still.
    pub(crate) fn remove<R: Files>(&self, files: &R) -> io::Result<()> {
        if standing_at(files, self.path.as_str())?.is(self.id) {
            return fs::remove_file(files, self.path.as_str());
        }
        Err(io::Error::new(ErrorKind::NotFound, "another run has replaced the file"))
    }
}
