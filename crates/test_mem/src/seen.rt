//! What the tests see of a disk or a world in memory beside its calls.
use jtext::Text;
use samples::Fount;
use world::{Disk, Entries, Say};
use world_mem::{Files, ImageFault, MemDisk, MemWorld};

/// A disk in memory.
pub(crate) trait SeenDisk: Disk + Say {
    /// The entries so far, the oldest first, and `None` where they are no longer told.
    fn entries(&self) -> Option<&Entries>;

    /// The bytes of the file at a path, and `None` where there is none.
    fn bytes_at(&self, path: &Text) -> Option<&[u8]>;

    /// All that was said.
    fn heard(&self) -> &[u8];

    /// How many calls memory was refused in.
    fn refused_memory(&self) -> u64;
}

/// A disk in memory with images of what a crash leaves.
pub(crate) trait SeenCrash: SeenDisk {
    /// Lets so many further calls of the disk through.
    fn burn(&mut self, n: u64);

    /// The files that a crash after so many entries may leave, picked by `choice`.
    fn left(&self, t: u64, choice: u64) -> Result<Files, ImageFault>;
}

impl SeenDisk for MemDisk {
    fn entries(&self) -> Option<&Entries> {
        self.journal()
    }

    fn bytes_at(&self, path: &Text) -> Option<&[u8]> {
        Some(self.file(path)?.bytes())
    }

    fn heard(&self) -> &[u8] {
        self.said().bytes()
    }

    fn refused_memory(&self) -> u64 {
        self.starved()
    }
}

impl SeenDisk for MemWorld<Fount> {
    fn entries(&self) -> Option<&Entries> {
        self.journal()
    }

    fn bytes_at(&self, path: &Text) -> Option<&[u8]> {
        Some(self.file(path)?.bytes())
    }

    fn heard(&self) -> &[u8] {
        self.said().bytes()
    }

    fn refused_memory(&self) -> u64 {
        self.starved()
    }
}

impl SeenCrash for MemWorld<Fount> {
    fn burn(&mut self, n: u64) {
        self.fuse(n);
    }

    fn left(&self, t: u64, choice: u64) -> Result<Files, ImageFault> {
        self.image(t, choice)
    }
}
