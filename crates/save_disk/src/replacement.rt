//! `save`, one replacement of a file.
ghost use Rattle.std.specs.Prelude.{◌≡◌, ◌<◌, ℕ, List, length, IsErr, false};
ghost use Rattle.std.specs.Str.{bytes_eq};
ghost use Rattle.world.specs.Counts.{DiskCause};
ghost use Rattle.world.specs.Moments.{Told, Since};
ghost use Rattle.world.specs.Parts.{IsOf, OnDisk};
ghost use Rattle.world.specs.Touched.{Spares};
ghost use Rattle.save_disk.specs.Entries.{SaveOf};
ghost use Rattle.save_disk.specs.Places.{SaveEnd, SaveMoment};
ghost use Rattle.world.specs.Save.{temporary_of};

use crate::{SaveFault, SavePath, write_all};
use jtext::Text;
use world::{Did, Disk};

/// Replaces the output by `text`: a temporary file is created, written, synced and renamed onto it,
/// and the folder is synced. `Ok` acknowledges: from then on a crash leaves `text`. A fault names the
/// step whose call failed; after `Rename` and `DirSync` a crash may leave `text` or what it could
/// before. Takes no memory.
pub fn save<W: Disk>(w: &mut W, path: &SavePath, text: &[u8]) -> Result<(), SaveFault>
    requires { 0 < length text.now }

    // Which entries it adds, by its answer.
    ensures entries { Told (W.journal w.old) (W.journal w.new) (SaveOf path.now text.now result) }

    // What is known of the output afterwards. Exactly with `Ok` one save more is acknowledged.
    ensures end { Told (W.journal w.old) (W.journal w.new) (SaveEnd path.now text.now result) }

    // At every moment, whatever call fails, the output is as before or has the text beside that.
    ensures any_moment { Told (W.journal w.old) (W.journal w.new)
        (λ before. Since (SaveMoment path.now text.now before) before) }

    // No other path but the temporary file's is touched, and no other part of the world.
    ensures others { (q : List ℕ) → bytes_eq path.now q ≡ false →
        bytes_eq (temporary_of path.now) q ≡ false →
        Told (W.journal w.old) (W.journal w.new) (Since (Spares q)) }
    ensures part { Told (W.journal w.old) (W.journal w.new) (Since (IsOf OnDisk)) }

    // A fault comes only where a call of the disk failed.
    ensures cause { DiskCause (W.counts w.old) (W.counts w.new) (IsErr result) }
{
    path.replace(w, text)
}

impl SavePath {
    /// The same, by its entries.
    fn replace<W: Disk>(&self, w: &mut W, text: &[u8]) -> Result<(), SaveFault>
        ensures entries { Told (W.journal w.old) (W.journal w.new)
            (SaveOf self.now text.now result) }
        ensures cause { DiskCause (W.counts w.old) (W.counts w.new) (IsErr result) }
    {
        if w.create(&self.temporary) == Did::Failed {
            return Err(SaveFault::Write);
        }
        if write_all(w, &self.temporary, text) == Did::Failed {
            return Err(SaveFault::Write);
        }
        if w.sync(&self.temporary) == Did::Failed {
            return Err(SaveFault::Sync);
        }
        if w.rename(&self.temporary, &self.output) == Did::Failed {
            return Err(SaveFault::Rename);
        }
        if w.sync_dir(&self.folder) == Did::Failed {
            return Err(SaveFault::DirSync);
        }
        Ok(())
    }
}
