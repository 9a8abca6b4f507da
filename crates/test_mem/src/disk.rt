//! The disk in memory.
ghost use Rattle.std.specs.Prelude.{◌<◌, length};

use crate::seen::SeenDisk;
use crate::worlds::{files, sizes};
use jtext::{NoMemory, Text};
use std::alloc::Global;
use std::test::Fail;
use world::{Did, Disk, ReadFile, Say, Wrote};
use world_mem::MemDisk;

// A disk with these files, and with these calls that fail.
fn disk(alloc: Global, rows: &[(&str, &str)], fails: &[u64]) -> Result<MemDisk, NoMemory> {
    MemDisk::new(alloc, files(alloc, rows)?, sizes(alloc, fails)?)
}

// Whether a read gives these bytes.
fn reads<W: Disk>(w: &mut W, alloc: Global, path: &Text, most: u64, wanted: &[u8]) -> bool {
    match w.read_file(alloc, path, most) {
        ReadFile::Whole(bytes) => bytes.bytes() == wanted,
        _ => false,
    }
}

// Whether a read finds too many bytes.
fn is_big<W: Disk>(w: &mut W, alloc: Global, path: &Text, most: u64) -> bool {
    matches!(w.read_file(alloc, path, most), ReadFile::Big)
}

// Whether a read fails.
fn is_unread<W: Disk>(w: &mut W, alloc: Global, path: &Text) -> bool {
    matches!(w.read_file(alloc, path, 9), ReadFile::Failed)
}

// The first file of a path is read within the limit; an absent one and the call with number 3 fail.
fn reads_within<W: Disk>(w: &mut W, alloc: Global) -> Result<bool, NoMemory> {
    let a = Text::of(alloc, "a")?;
    let b = Text::of(alloc, "b")?;
    Ok(
        reads(w, alloc, &a, 3, b"abc")
            && is_big(w, alloc, &a, 2)
            && is_unread(w, alloc, &b)
            && is_unread(w, alloc, &a)
            && w.disk_faults() == 2,
    )
}

#[test]
fn a_file_is_read_within_its_limit(rt: HostRuntime) -> Result<(), Fail> {
    let alloc = rt.alloc();
    let mut disk = disk(alloc, &[("a", "abc"), ("a", "second")], &[3])?;
    let reads = reads_within(&mut disk, alloc);
    drop(disk);
    assert!(rt; reads?);
    Ok(())
}

// Whether a write takes the piece.
fn puts<W: Disk>(w: &mut W, path: &Text, piece: &[u8]) -> bool
    requires { 0 < length piece.now }
{
    match w.write(path, piece) {
        Wrote::Took(n) => n as usize == piece.len(),
        Wrote::Failed => false,
    }
}

// Whether what is to be said is heard.
fn says<W: Say>(w: &mut W, piece: &[u8]) -> bool
    requires { 0 < length piece.now }
{
    match w.write(piece) {
        Wrote::Took(n) => n as usize == piece.len(),
        Wrote::Failed => false,
    }
}

// Calls on a file that is absent, which all fail.
fn misses<W: Disk>(w: &mut W, b: &Text, a: &Text) -> bool {
    !puts(w, b, b"y")
        && w.sync(b) == Did::Failed
        && w.rename(b, a) == Did::Failed
        && w.remove(b) == Did::Failed
}

// The calls with numbers 0 and 2 fail, and those on an absent file.
fn fails_by_number<W: SeenDisk>(w: &mut W, alloc: Global) -> Result<bool, NoMemory> {
    let a = Text::of(alloc, "a")?;
    let b = Text::of(alloc, "b")?;
    let calls = !puts(w, &a, b"y")
        && puts(w, &a, b"y")
        && !says(w, b"z")
        && says(w, b"hi")
        && misses(w, &b, &a);
    Ok(calls && w.bytes_at(&a) == Some(b"xy") && w.heard() == b"hi".as_slice())
}

// The file is removed, and the counts are those of the calls that failed.
fn removes<W: SeenDisk>(w: &mut W, alloc: Global) -> Result<bool, NoMemory> {
    let a = Text::of(alloc, "a")?;
    Ok(
        w.remove(&a) == Did::Done
            && w.bytes_at(&a).is_none()
            && w.disk_faults() == 5
            && w.say_faults() == 1
            && w.refused_memory() == 0,
    )
}

#[test]
fn calls_fail_by_their_numbers_and_without_a_file(rt: HostRuntime) -> Result<(), Fail> {
    let alloc = rt.alloc();
    let mut disk = disk(alloc, &[("a", "x")], &[0, 2])?;
    let fails = fails_by_number(&mut disk, alloc);
    let removes = removes(&mut disk, alloc);
    drop(disk);
    assert!(rt; fails?);
    assert!(rt; removes?);
    Ok(())
}

// A file that is renamed to its own name.
fn stays<W: SeenDisk>(w: &mut W, alloc: Global) -> Result<bool, NoMemory> {
    let a = Text::of(alloc, "a")?;
    Ok(
        w.rename(&a, &a) == Did::Done
            && w.bytes_at(&a) == Some(b"x")
            && w.disk_faults() == 0
            && w.refused_memory() == 0,
    )
}

#[test]
fn a_file_that_is_renamed_to_its_own_name_stays(rt: HostRuntime) -> Result<(), Fail> {
    let alloc = rt.alloc();
    let mut disk = disk(alloc, &[("a", "x")], &[])?;
    let stays = stays(&mut disk, alloc);
    drop(disk);
    assert!(rt; stays?);
    Ok(())
}
