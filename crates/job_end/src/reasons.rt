//! What is said of an end that names something.
ghost use Rattle.std.specs.Prelude.{◌≡◌, ◌++◌, codes, string_bytes, IfOk};
ghost use Rattle.std.specs.Fmt.{decimal};
ghost use Rattle.jtext.specs.Print.{quote};
ghost use Rattle.kspec.specs.Messages as spec_fault;
ghost use Rattle.save_disk.specs.Messages as save_fault;
ghost use Rattle.job_end.specs.Reasons.{reason_of, of_cell as reason_of_cell, name_of};
ghost use Rattle.job_end.specs.declared.end.End.TheVariants as end;

use jtext::{Bytes, Json, NoMemory, Text, write_compact};
use kspec::SpecFault;
use save_disk::SaveFault;
use std::alloc::Global;
use world::Chan;
use zmtp_wire::WireFault;

/// One text after another.
fn join(alloc: Global, first: &[u8], second: &[u8]) -> Result<Bytes, NoMemory>
    ensures { IfOk result (λ b. b ≡ first.now ++ second.now) }
{
    let mut text = Bytes::of(alloc, first)?;
    text.add(second)?;
    Ok(text)
}

/// The name of an exception as a JSON string.
pub(crate) fn error_of(alloc: Global, name: &Text) -> Result<Bytes, NoMemory>
    ensures { IfOk result (λ b. b ≡ codes "error " ++ quote name.now) }
{
    let name = Json::Str(Text::of(alloc, name.as_str())?);
    let name = write_compact(alloc, &name)?;
    join(alloc, b"error ", name.bytes())
}

/// Something of a cell.
pub(crate) fn of_cell(alloc: Global, cell: u32, what: &[u8]) -> Result<Bytes, NoMemory>
    ensures { IfOk result (λ b. b ≡ reason_of_cell cell what.now) }
{
    let front = cell_front(alloc, cell)?;
    join(alloc, front.as_bytes(), what)
}

fn cell_front(alloc: Global, cell: u32) -> Result<String, NoMemory>
    ensures { IfOk result (λ s. string_bytes s ≡ codes "cell " ++ decimal cell ++ codes ": ") }
{
    Ok(format!(in alloc; "cell {cell}: ")?)
}

/// A file that can't be read.
pub(crate) fn of_path(alloc: Global, path: &Text) -> Result<Bytes, NoMemory>
    ensures { IfOk result (λ b. b ≡ codes "cannot read " ++ path.now) }
{
    join(alloc, b"cannot read ", path.bytes())
}

/// A kernel spec that is refused.
pub(crate) fn of_spec(alloc: Global, fault: SpecFault) -> Result<String, NoMemory>
    ensures { IfOk result (λ s. string_bytes s
        ≡ codes "kernel spec: " ++ spec_fault.message fault) }
{
    Ok(format!(in alloc; "kernel spec: {fault}")?)
}

/// A step of a save that failed.
pub(crate) fn of_save(alloc: Global, fault: SaveFault) -> Result<String, NoMemory>
    ensures { IfOk result (λ s. string_bytes s
        ≡ codes "cannot save: " ++ save_fault.message fault) }
{
    Ok(format!(in alloc; "cannot save: {fault}")?)
}

/// A broken stream, by the number of its fault and the place of the octet that breaks it.
pub(crate) fn of_peer(alloc: Global, chan: Chan, fault: WireFault) -> Result<Bytes, NoMemory>
    ensures { IfOk result (λ b. b ≡ reason_of (end.BadPeer chan fault)) }
{
    let front = peer_front(alloc, channel(chan))?;
    let place = numbered_place(alloc, fault.number(), fault.place())?;
    join(alloc, front.as_bytes(), place.as_bytes())
}

fn peer_front(alloc: Global, name: &str) -> Result<String, NoMemory>
    ensures { IfOk result (λ s. string_bytes s ≡ codes "bad peer on " ++ name.now ++ codes ": ") }
{
    Ok(format!(in alloc; "bad peer on {name}: ")?)
}

fn numbered_place(alloc: Global, number: u32, at: u64) -> Result<String, NoMemory>
    ensures { IfOk result (λ s. string_bytes s ≡ decimal number ++ codes " at " ++ decimal at) }
{
    Ok(format!(in alloc; "{number} at {at}")?)
}

fn channel(chan: Chan) -> &'static str
    ensures { result.now ≡ name_of chan }
{
    match chan {
        Chan::Shell => "shell",
        Chan::Control => "control",
        Chan::Iopub => "iopub",
        Chan::Heart => "heart",
    }
}
