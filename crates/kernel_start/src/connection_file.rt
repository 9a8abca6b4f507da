//! The connection file of a kernel.
ghost use Rattle.std.specs.Prelude.{◌≡◌, ℕ, List, Err, IfOk, IsOk, false};
ghost use Rattle.std.specs.Str.{bytes_eq};
ghost use Rattle.words.specs.Paths.{connection_of};
ghost use Rattle.world.specs.Counts.{DiskCause};
ghost use Rattle.world.specs.Disk.{place};
ghost use Rattle.world.specs.Moments.{Told, Since};
ghost use Rattle.world.specs.Parts.{IsOf, OnDisk};
ghost use Rattle.world.specs.Touched.{Spares};
ghost use Rattle.world.specs.declared.did.Did.TheVariants as did;
ghost use Rattle.kernel_start.specs.declared.connection_fault.ConnectionFault.TheVariants as fault;
ghost use Rattle.kernel_start.specs.ConnectionFile as spec;

use crate::ConnectionFault;
use jtext::{NoMemory, Text};
use kspec::connection_text;
use save_disk::write_all;
use std::alloc::Global;
use world::{Did, Disk};

/// The path of the connection file of this output, which has `.nbrun-kernel.json` behind it.
pub fn connection_path(alloc: Global, output: &Text) -> Result<Text, NoMemory>
    ensures { IfOk result (λ path. path ≡ connection_of output.now) }
{
    let output = output.as_str();
    Ok(Text::of_string(format!(in alloc; "{output}.nbrun-kernel.json")?))
}

/// Writes the connection file (jupyter_client, "Connection files") with these ports of this
/// machine, for shell, iopub, stdin, control and heartbeat, and this key of the signatures: it is
/// created, written and synced. The text is there before the disk is called. After `Failed` the
/// file may be there, with any bytes.
pub fn write_connection<W: Disk>(
    alloc: Global,
    w: &mut W,
    path: &Text,
    ports: [u16; 5],
    key: &Text,
) -> Result<(), ConnectionFault>
    // Which entries it adds, by its answer, and where memory is refused none.
    ensures entries { Told (W.journal w.old) (W.journal w.new)
        (spec.WritesFile path.now (spec.file_text ports key.now) result) }
    ensures idle { result ≡ Err fault.NoMemory →
        (W.journal w.new ≡ W.journal w.old) × (W.counts w.new ≡ W.counts w.old) }

    // After Ok the path names a file of just that text, and a crash leaves it.
    ensures place { IsOk result → Told (W.journal w.old) (W.journal w.new)
        (λ _ after. place after path.now ≡ spec.synced_text (spec.file_text ports key.now)) }

    // No other path is touched, and no other part of the world.
    ensures others { (q : List ℕ) → bytes_eq path.now q ≡ false →
        Told (W.journal w.old) (W.journal w.new) (Since (Spares q)) }
    ensures part { Told (W.journal w.old) (W.journal w.new) (Since (IsOf OnDisk)) }

    // It fails only where a call of the disk failed.
    ensures cause { DiskCause (W.counts w.old) (W.counts w.new) (result ≡ Err fault.Failed) }
{
    write_file(alloc, w, path, ports, key)
}

/// The same, by its entries.
fn write_file<W: Disk>(
    alloc: Global,
    w: &mut W,
    path: &Text,
    ports: [u16; 5],
    key: &Text,
) -> Result<(), ConnectionFault>
    ensures entries { Told (W.journal w.old) (W.journal w.new)
        (spec.WritesFile path.now (spec.file_text ports key.now) result) }
    ensures idle { result ≡ Err fault.NoMemory →
        (W.journal w.new ≡ W.journal w.old) × (W.counts w.new ≡ W.counts w.old) }
    ensures cause { DiskCause (W.counts w.old) (W.counts w.new) (result ≡ Err fault.Failed) }
{
    let text = connection_text(alloc, ports, key)?;
    match make_file(w, path, text.bytes()) {
        Did::Done => Ok(()),
        Did::Failed => Err(ConnectionFault::Failed),
    }
}

/// Creates the file, writes the text to it and syncs it.
fn make_file<W: Disk>(w: &mut W, path: &Text, text: &[u8]) -> Did
    ensures entries { Told (W.journal w.old) (W.journal w.new)
        (spec.MakesFile path.now text.now result) }
    ensures cause { DiskCause (W.counts w.old) (W.counts w.new) (result ≡ did.Failed) }
{
    let Did::Done = w.create(path) else {
        return Did::Failed;
    };
    let Did::Done = write_all(w, path, text) else {
        return Did::Failed;
    };
    w.sync(path)
}
