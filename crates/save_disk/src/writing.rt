//! `write_all`, the writes of a whole text.
ghost use Rattle.std.specs.Prelude.{◌≡◌};
ghost use Rattle.world.specs.Counts.{DiskCause};
ghost use Rattle.world.specs.Moments.{Told};
ghost use Rattle.world.specs.declared.did.Did.TheVariants as did;
ghost use Rattle.save_disk.specs.Entries.{WritesBy};

use jtext::Text;
use world::{Did, Disk, Wrote};

/// Writes the text to the file of this path, piece by piece. Takes no memory.
pub fn write_all<W: Disk>(w: &mut W, path: &Text, text: &[u8]) -> Did
    ensures entries { Told (W.journal w.old) (W.journal w.new) (WritesBy path.now text.now result) }
    ensures cause { DiskCause (W.counts w.old) (W.counts w.new) (result ≡ did.Failed) }
{
    let mut rest = text;
    while !rest.is_empty() {
        match w.write(path, rest) {
            Wrote::Took(n) => rest = &rest[n as usize..],
            Wrote::Failed => return Did::Failed,
        }
    }
    Did::Done
}
