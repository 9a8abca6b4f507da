//! Files.
ghost use Rattle.std.specs.Prelude.{◌≡◌, ◌<◌, ◌≤◌, length, IfOk, IfSome};
ghost use Rattle.world_real.specs.Files.{found_within};

use crate::RealWorld;
use crate::answers::{did_of, found_of, wrote_of};
use crate::complaint::note;
use crate::held_files::HeldFiles;
use jtext::{Bytes, NoMemory, Text};
use std::alloc::Global;
use std::fs::{File, OpenFile};
use std::io::{ErrorKind, Read};
use std::net::Net;
use std::process::Processes;
use std::rt::{Clock, Files};
use std::{fs, io};
use world::{Did, Disk, ReadFile, Wrote};

/// The most bytes that one write takes.
const MOST: usize = 1 << 30;

/// What is written, synced, renamed and removed are files that this world has made itself.
impl<R: Files<File = File> + Net + Processes + Clock + Print + Drop> Disk for RealWorld<R> {
    fn disk_faults(&self) -> u64 {
        self.disk_faults
    }

    fn read_file(&mut self, alloc: Global, path: &Text, most: u64) -> ReadFile {
        let found = read_at(&self.rt, alloc, path.as_str(), most);
        note(&mut self.complaint, self.alloc, path.as_str(), &found);
        found_of(found, &mut self.disk_faults)
    }

    fn create(&mut self, path: &Text) -> Did {
        let created = create_at(&self.rt, self.alloc, &mut self.held, path);
        note(&mut self.complaint, self.alloc, path.as_str(), &created);
        did_of(created, &mut self.disk_faults)
    }

    fn write(&mut self, path: &Text, piece: &[u8]) -> Wrote {
        let taken = self.held.write(path.as_str(), cap(piece));
        note(&mut self.complaint, self.alloc, path.as_str(), &taken);
        wrote_of(taken, &mut self.disk_faults)
    }

    fn sync(&mut self, path: &Text) -> Did {
        let synced = self.held.sync(path.as_str());
        note(&mut self.complaint, self.alloc, path.as_str(), &synced);
        did_of(synced, &mut self.disk_faults)
    }

    fn rename(&mut self, from: &Text, to: &Text) -> Did {
        let renamed = self.held.rename(&self.rt, from.as_str(), to.as_str());
        note(&mut self.complaint, self.alloc, to.as_str(), &renamed);
        did_of(renamed, &mut self.disk_faults)
    }

    fn sync_dir(&mut self, dir: &Text) -> Did {
        let synced = sync_folder(&self.rt, dir.as_str());
        note(&mut self.complaint, self.alloc, dir.as_str(), &synced);
        did_of(synced, &mut self.disk_faults)
    }

    // What a job leaves behind is no reason why it ended: nothing is noted here.
    fn remove(&mut self, path: &Text) -> Did {
        let removed = self.held.remove(&self.rt, path.as_str());
        did_of(removed, &mut self.disk_faults)
    }
}

// The bytes of the file, and `None` where it has more than `most`.
fn read_at<R: Files>(files: &R, alloc: Global, path: &str, most: u64) -> io::Result<Option<Bytes>>
    ensures { IfOk result (λ found. IfSome found (λ bytes. length bytes ≤ most)) }
{
    read_within(alloc, fs::open(files, path)?, most)
}

// The bytes that are left, and `None` where they are more than `most`.
fn read_within<F: Read + Drop>(alloc: Global, file: F, most: u64) -> io::Result<Option<Bytes>>
    ensures within { IfOk result (λ found. IfSome found (λ bytes. length bytes ≤ most)) }
    ensures whole { IfSome (F.remaining file)
        (λ left. IfOk result (λ found. found ≡ found_within most left)) }
{
    let mut bytes = Vec::new(alloc);
    let mut limited = file.take(most.saturating_add(1));
    limited.read_to_end(&mut bytes)?;
    if bytes.len() as u64 > most {
        return Ok(None);
    }
    Ok(Some(Bytes::of_vec(bytes)))
}

// Makes a new file in the place of what stands there.
fn create_at<R: Files<File = File>>(
    files: &R,
    alloc: Global,
    held: &mut HeldFiles,
    path: &Text,
) -> io::Result<()> {
    match path.copy(alloc) {
        Ok(path) => held.create(files, path),
        Err(NoMemory) => Err(io::Error::from(ErrorKind::OutOfMemory)),
    }
}

// A folder is opened for reading as a file is.
fn sync_folder<R: Files>(files: &R, path: &str) -> io::Result<()> {
    fs::open(files, path)?.sync_all()
}

/// A front of the piece, of at most 2^30 bytes.
pub(crate) fn cap(piece: &[u8]) -> &[u8]
    ensures some { 0 < length piece.now → 0 < length result.now }
    ensures most { length result.now ≤ 1073741824 }
    ensures within { length result.now ≤ length piece.now }
{
    &piece[..piece.len().min(MOST)]
}
