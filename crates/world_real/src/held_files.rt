//! `HeldFiles`, the files that the world has made and that have their names still.
ghost use Rattle.std.specs.Prelude.{◌≤◌, length, IfOk};

use crate::held_file::HeldFile;
use jtext::{NoMemory, Text};
use std::alloc::Global;
use std::fs::{File, Files};
use std::io;
use std::io::ErrorKind;

/// The files that the world has made, no name twice. Calls on a name go to the file that was made
/// under it, and to no other.
#[derive(Drop)]
pub(crate) struct HeldFiles {
    alloc: Global,
    files: Vec<HeldFile>,
}

impl HeldFiles {
    /// No file yet.
    pub(crate) fn new(alloc: Global) -> HeldFiles {
        HeldFiles {
            alloc,
            files: Vec::new(alloc),
        }
    }

    /// Makes a new file in the place of what stands there.
    pub(crate) fn create<R: Files<File = File>>(
        &mut self,
        files: &R,
        path: Text,
    ) -> io::Result<()> {
        self.let_go(path.as_str());
        self.files.push(HeldFile::make(files, path)?)?;
        Ok(())
    }

    /// How many bytes of the piece were put at the end of the file of this name.
    pub(crate) fn write(&mut self, path: &str, piece: &[u8]) -> io::Result<usize>
        ensures { IfOk result (λ n. n ≤ length piece.now) }
    {
        for held in self.files.iter_mut() {
            if held.has_name(path) {
                return held.write(piece);
            }
        }
        Err(not_made())
    }

    /// Makes the bytes of the file of this name durable.
    pub(crate) fn sync(&self, path: &str) -> io::Result<()> {
        match self.find(path) {
            Some(held) => held.sync(),
            None => Err(not_made()),
        }
    }

    /// Gives the file of this name that name, and lets it go.
    pub(crate) fn rename<R: Files>(&mut self, files: &R, path: &str, to: &str) -> io::Result<()> {
        match self.find(path) {
            Some(held) => held.rename(files, self.alloc, to)?,
            None => return Err(not_made()),
        }
        self.let_go(path);
        Ok(())
    }

    /// Removes the name of the file, and lets it go.
    pub(crate) fn remove<R: Files>(&mut self, files: &R, path: &str) -> io::Result<()> {
        let removed = match self.find(path) {
            Some(held) => held.remove(files),
            None => Err(not_made()),
        };
        self.let_go(path);
        removed
    }

    fn find(&self, path: &str) -> Option<&HeldFile> {
        self.files.iter().find(|held| held.has_name(path))
    }

    // Closes the file of this name, which ends its lock.
    fn let_go(&mut self, path: &str) {
        self.files.retain(|held| !held.has_name(path));
    }
}

fn not_made() -> io::Error {
    io::Error::new(ErrorKind::NotFound, "no file was made under this name")
}
