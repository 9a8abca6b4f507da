//! What the tests see of a disk in memory beside its calls.
use jtext::Text;
use world::{Disk, Say};
use world_mem::MemDisk;

/// A disk in memory.
pub(crate) trait SeenDisk: Disk + Say {
    /// The bytes of the file at a path, and `None` where there is none.
    fn bytes_at(&self, path: &Text) -> Option<&[u8]>;

    /// All that was said.
    fn heard(&self) -> &[u8];

    /// How many calls were told, and 0 where they are no longer told.
    fn calls(&self) -> usize;
}

impl SeenDisk for MemDisk {
    fn bytes_at(&self, path: &Text) -> Option<&[u8]> {
        Some(self.file(path)?.bytes())
    }

    fn heard(&self) -> &[u8] {
        self.said().bytes()
    }

    fn calls(&self) -> usize {
        match self.journal() {
            Some(entries) => entries.len(),
            None => 0,
        }
    }
}
