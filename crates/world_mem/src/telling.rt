//! The journal as data.
ghost use Rattle.std.specs.Prelude.{◌≡◌, ◌∷◌, IfOk, IsOkAnd, None};
ghost use Rattle.world.specs.declared.entry.Entry.{Entry};
ghost use Rattle.world.specs.Moments.{Told};
ghost use Rattle.world.specs.Told.{TookSome, did_of, taken_of};
ghost use Rattle.world.specs.Waits.{moment_of};
ghost use Rattle.world_mem.specs.Journals.{told_of};

use crate::copies::{copy_fields, copy_text, copy_texts};
use jtext::{Bytes, Fields, NoMemory, Text, Texts};
use std::alloc::Global;
use world::{Conn, Did, Entries, Entry, ReadFile, Wrote};

/// Adds an entry, or ends the telling where there is none or memory for it is refused.
pub fn tell(journal: &mut Option<Entries>, entry: Result<Entry, NoMemory>)
    ensures { Told (told_of journal.old) (told_of journal.new)
        (λ before after. IsOkAnd entry (λ e. after ≡ e ∷ before)) }
{
    let kept = match (journal.as_mut(), entry) {
        (Some(entries), Ok(entry)) => entries.push(entry).is_ok(),
        _ => false,
    };
    if !kept {
        *journal = None;
    }
}

/// The entry of a read of a file.
pub fn read_entry(
    alloc: Global,
    path: &Text,
    most: u64,
    found: &ReadFile,
) -> Result<Entry, NoMemory>
    ensures is { IfOk result (λ e. e ≡ Entry.Read path.now most found.now) }
    ensures untimed { IfOk result (λ e. moment_of e ≡ None) }
{
    let found = match found {
        ReadFile::Whole(bytes) => ReadFile::Whole(Bytes::of(alloc, bytes.bytes())?),
        ReadFile::Big => ReadFile::Big,
        ReadFile::Failed => ReadFile::Failed,
        ReadFile::NoMemory => ReadFile::NoMemory,
    };
    let path = copy_text(alloc, path)?;
    Ok(Entry::Read { path, most, found })
}

/// The entry of a create.
pub fn created_entry(alloc: Global, path: &Text, did: Did) -> Result<Entry, NoMemory>
    ensures is { IfOk result (λ e. e ≡ Entry.Created path.now did) }
    ensures untimed { IfOk result (λ e. moment_of e ≡ None) }
{
    let path = copy_text(alloc, path)?;
    Ok(Entry::Created { path, did })
}

/// The entry of a write to a file.
pub fn wrote_entry(alloc: Global, path: &Text, bytes: &[u8], did: Did) -> Result<Entry, NoMemory>
    ensures is { IfOk result (λ e. e ≡ Entry.Wrote path.now bytes.now did) }
    ensures untimed { IfOk result (λ e. moment_of e ≡ None) }
{
    let path = copy_text(alloc, path)?;
    let bytes = Bytes::of(alloc, bytes)?;
    Ok(Entry::Wrote { path, bytes, did })
}

/// The entry of a write to a file that answered so.
pub fn wrote_by(alloc: Global, path: &Text, piece: &[u8], wrote: Wrote) -> Result<Entry, NoMemory>
    requires { TookSome wrote piece.now }
    ensures is { IfOk result (λ e.
        e ≡ Entry.Wrote path.now (taken_of wrote piece.now) (did_of wrote)) }
    ensures untimed { IfOk result (λ e. moment_of e ≡ None) }
{
    match wrote {
        Wrote::Took(n) => wrote_entry(alloc, path, &piece[..n as usize], Did::Done),
        Wrote::Failed => wrote_entry(alloc, path, piece, Did::Failed),
    }
}

/// The entry of a sync of a file.
pub fn synced_entry(alloc: Global, path: &Text, did: Did) -> Result<Entry, NoMemory>
    ensures is { IfOk result (λ e. e ≡ Entry.Synced path.now did) }
    ensures untimed { IfOk result (λ e. moment_of e ≡ None) }
{
    let path = copy_text(alloc, path)?;
    Ok(Entry::Synced { path, did })
}

/// The entry of a rename.
pub fn renamed_entry(alloc: Global, from: &Text, to: &Text, did: Did) -> Result<Entry, NoMemory>
    ensures is { IfOk result (λ e. e ≡ Entry.Renamed from.now to.now did) }
    ensures untimed { IfOk result (λ e. moment_of e ≡ None) }
{
    let from = copy_text(alloc, from)?;
    let to = copy_text(alloc, to)?;
    Ok(Entry::Renamed { from, to, did })
}

/// The entry of a sync of a folder.
pub fn dir_synced_entry(alloc: Global, dir: &Text, did: Did) -> Result<Entry, NoMemory>
    ensures is { IfOk result (λ e. e ≡ Entry.DirSynced dir.now did) }
    ensures untimed { IfOk result (λ e. moment_of e ≡ None) }
{
    let dir = copy_text(alloc, dir)?;
    Ok(Entry::DirSynced { dir, did })
}

/// The entry of a remove.
pub fn removed_entry(alloc: Global, path: &Text, did: Did) -> Result<Entry, NoMemory>
    ensures is { IfOk result (λ e. e ≡ Entry.Removed path.now did) }
    ensures untimed { IfOk result (λ e. moment_of e ≡ None) }
{
    let path = copy_text(alloc, path)?;
    Ok(Entry::Removed { path, did })
}

/// The entry of a read of a connection with bytes, into a buffer with that room.
pub fn got_entry(alloc: Global, conn: Conn, room: usize, bytes: &[u8]) -> Result<Entry, NoMemory>
    ensures is { IfOk result (λ e. e ≡ Entry.Got conn room bytes.now) }
    ensures untimed { IfOk result (λ e. moment_of e ≡ None) }
{
    let bytes = Bytes::of(alloc, bytes)?;
    Ok(Entry::Got {
        conn,
        room: room as u64,
        bytes,
    })
}

/// The entry of a write to a connection that took these bytes.
pub fn put_entry(alloc: Global, conn: Conn, bytes: &[u8]) -> Result<Entry, NoMemory>
    ensures is { IfOk result (λ e. e ≡ Entry.Put conn bytes.now) }
    ensures untimed { IfOk result (λ e. moment_of e ≡ None) }
{
    let bytes = Bytes::of(alloc, bytes)?;
    Ok(Entry::Put { conn, bytes })
}

/// The entry of what was said.
pub fn said_entry(alloc: Global, bytes: &[u8], did: Did) -> Result<Entry, NoMemory>
    ensures is { IfOk result (λ e. e ≡ Entry.Said bytes.now did) }
    ensures untimed { IfOk result (λ e. moment_of e ≡ None) }
{
    let bytes = Bytes::of(alloc, bytes)?;
    Ok(Entry::Said { bytes, did })
}

/// The entry of what was said, where the call answered so.
pub fn said_by(alloc: Global, piece: &[u8], wrote: Wrote) -> Result<Entry, NoMemory>
    requires { TookSome wrote piece.now }
    ensures is { IfOk result (λ e. e ≡ Entry.Said (taken_of wrote piece.now) (did_of wrote)) }
    ensures untimed { IfOk result (λ e. moment_of e ≡ None) }
{
    match wrote {
        Wrote::Took(n) => said_entry(alloc, &piece[..n as usize], Did::Done),
        Wrote::Failed => said_entry(alloc, piece, Did::Failed),
    }
}

/// The entry of a start of a child.
pub fn started_entry(
    alloc: Global,
    job: u8,
    argv: &Texts,
    env: &Fields,
    dir: &Text,
    did: Did,
) -> Result<Entry, NoMemory>
    ensures is { IfOk result (λ e. e ≡ Entry.Started job argv.now env.now dir.now did) }
    ensures untimed { IfOk result (λ e. moment_of e ≡ None) }
{
    let argv = copy_texts(alloc, argv)?;
    let env = copy_fields(alloc, env)?;
    let dir = copy_text(alloc, dir)?;
    Ok(Entry::Started {
        job,
        argv,
        env,
        dir,
        did,
    })
}
