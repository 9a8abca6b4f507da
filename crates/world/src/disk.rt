//! Files, by their paths.
ghost use Rattle.std.specs.Prelude.{◌≡◌, ◌<◌, length, IfSome};
ghost use Rattle.world.specs.declared.entry.Entry.{Entry};
ghost use Rattle.world.specs.Counts.{CountsBy, DiskCause};
ghost use Rattle.world.specs.Faults.{fault_count};
ghost use Rattle.world.specs.Parts.{OnDisk};
ghost use Rattle.world.specs.Rises.{clipped};
ghost use Rattle.world.specs.Told.{Adds, taken_of, did_of, TookSome, FoundWithin};

use crate::{Did, Journal, ReadFile, Wrote};
use jtext::Text;
use std::alloc::Global;

/// Files that are read whole, and written piece by piece. What a crash leaves of them is
/// `specs/Disk`.
pub trait Disk: Journal {
    /// How many calls of the disk have failed, up to the last value of a `u64`: the journal's
    /// count, where it is told.
    fn disk_faults(&self) -> u64
        ensures is { result ≡ (Self.counts self.now).disk }
        ensures told { IfSome (Self.journal self.now)
            (λ past. result ≡ clipped (fault_count OnDisk past)) };

    /// Reads the file where it has at most `most` bytes. Memory for them may be refused.
    fn read_file(&mut self, alloc: Global, path: &Text, most: u64) -> ReadFile
        ensures within { FoundWithin result most }
        ensures tells { Adds Self.journal self.old self.new (Entry.Read path.now most result) }
        ensures cause { CountsBy DiskCause Self.counts self.old self.new
            (result ≡ ReadFile.Failed) };

    /// Makes an empty file, or empties the one that is there.
    fn create(&mut self, path: &Text) -> Did
        ensures tells { Adds Self.journal self.old self.new (Entry.Created path.now result) }
        ensures cause { CountsBy DiskCause Self.counts self.old self.new (result ≡ Did.Failed) };

    /// Puts the first bytes of the piece, at least one, at the end of the file.
    fn write(&mut self, path: &Text, piece: &[u8]) -> Wrote
        requires { 0 < length piece.now }
        ensures some { TookSome result piece.now }
        ensures tells { Adds Self.journal self.old self.new
            (Entry.Wrote path.now (taken_of result piece.now) (did_of result)) }
        ensures cause { CountsBy DiskCause Self.counts self.old self.new (result ≡ Wrote.Failed) };

    /// Makes the bytes of the file durable.
    fn sync(&mut self, path: &Text) -> Did
        ensures tells { Adds Self.journal self.old self.new (Entry.Synced path.now result) }
        ensures cause { CountsBy DiskCause Self.counts self.old self.new (result ≡ Did.Failed) };

    /// Gives the file another name, in place of the file that has it.
    fn rename(&mut self, from: &Text, to: &Text) -> Did
        ensures tells { Adds Self.journal self.old self.new (Entry.Renamed from.now to.now result) }
        ensures cause { CountsBy DiskCause Self.counts self.old self.new (result ≡ Did.Failed) };

    /// Makes the names in the folder durable.
    fn sync_dir(&mut self, dir: &Text) -> Did
        ensures tells { Adds Self.journal self.old self.new (Entry.DirSynced dir.now result) }
        ensures cause { CountsBy DiskCause Self.counts self.old self.new (result ≡ Did.Failed) };

    /// Removes the name of the file.
    fn remove(&mut self, path: &Text) -> Did
        ensures tells { Adds Self.journal self.old self.new (Entry.Removed path.now result) }
        ensures cause { CountsBy DiskCause Self.counts self.old self.new (result ≡ Did.Failed) };
}
