//! The calls of the disk that a save makes, in order.
use jtext::{Bytes, Text};
use save_disk::{SavePath, save};
use std::alloc::Global;
use std::test::Fail;
use world::{Did, Entry};
use world_mem::{Files, MemDisk, Sizes};

/// The calls of the disk, each with its path; those that failed have an exclamation mark.
fn calls(rt: &HostRuntime, disk: &MemDisk) -> Result<String, Fail> {
    let mut said = String::new(rt.alloc());
    let entries = disk.journal().ok_or("the journal isn't told")?;
    for entry in entries.as_slice() {
        let (call, path, did) = match entry {
            Entry::Created { path, did } => ("create", path, *did),
            Entry::Wrote { path, did, .. } => ("write", path, *did),
            Entry::Synced { path, did } => ("sync", path, *did),
            Entry::Renamed { to, did, .. } => ("rename", to, *did),
            Entry::DirSynced { dir, did } => ("sync folder", dir, *did),
            _ => return Err("another call was made".into()),
        };
        said.push_str(call)?;
        said.push_str(if did == Did::Done { " " } else { "! " })?;
        said.push_str(path.as_str())?;
        said.push_str("|")?;
    }
    Ok(said)
}

/// The calls of a save of the text `x` to the output, of which the one with this number fails.
fn save_calls(rt: &HostRuntime, output: &str, fail: Option<u64>) -> Result<String, Fail> {
    let alloc = rt.alloc();
    let mut fails = Sizes::new(alloc);
    if let Some(number) = fail {
        fails.push(number)?;
    }
    let path = SavePath::of(alloc, &Text::of(alloc, output)?)?;
    let mut disk = MemDisk::new(alloc, Files::new(alloc), fails)?;
    let _ = save(&mut disk, &path, b"x");
    let said = calls(rt, &disk);
    drop(disk);
    said
}

/// A line an output: its path, and the folder that is synced.
const FOLDERS: &str = "\
d/o d
o .
/o /
d/../o d/..
d//o d/";

#[test]
fn a_save_syncs_the_folder_of_its_output(rt: HostRuntime) -> Result<(), Fail> {
    for row in FOLDERS.lines() {
        let (output, folder) = row.split_once(' ').ok_or("no folder")?;
        let found = save_calls(&rt, output, None)?;
        let wanted = format!(in rt.alloc();
            "create {output}.nbrun-tmp|write {output}.nbrun-tmp|sync {output}.nbrun-tmp|rename {output}|sync folder {folder}|"
        )?;
        assert_eq!(rt; found.as_str(), wanted.as_str(), "{output}");
    }
    Ok(())
}

/// A line a call that fails: its number, and the calls up to it.
const FAILING: &str = "\
0 create! o.nbrun-tmp|
1 create o.nbrun-tmp|write! o.nbrun-tmp|
2 create o.nbrun-tmp|write o.nbrun-tmp|sync! o.nbrun-tmp|
3 create o.nbrun-tmp|write o.nbrun-tmp|sync o.nbrun-tmp|rename! o|
4 create o.nbrun-tmp|write o.nbrun-tmp|sync o.nbrun-tmp|rename o|sync folder! .|";

#[test]
fn a_save_ends_with_the_call_that_fails(rt: HostRuntime) -> Result<(), Fail> {
    for row in FAILING.lines() {
        let (number, wanted) = row.split_once(' ').ok_or("no number")?;
        let fail = number.parse::<u64>().map_err(|_| "no number")?;
        let found = save_calls(&rt, "o", Some(fail))?;
        assert_eq!(rt; found.as_str(), wanted, "call {number}");
    }
    Ok(())
}

#[test]
fn a_done_save_leaves_the_text_alone(rt: HostRuntime) -> Result<(), Fail> {
    let alloc = rt.alloc();
    let mut files = Files::new(alloc);
    files.push((Text::of(alloc, "o")?, Bytes::of(alloc, b"old")?))?;
    let mut disk = MemDisk::new(alloc, files, Sizes::new(alloc))?;
    let left = saves_alone(alloc, &mut disk);
    drop(disk);
    assert!(rt; left?);
    Ok(())
}

/// Whether a save to `o` is done, and the text stands there and nowhere else.
fn saves_alone(alloc: Global, disk: &mut MemDisk) -> Result<bool, Fail> {
    let path = SavePath::of(alloc, &Text::of(alloc, "o")?)?;
    let is_done = save(disk, &path, b"new").is_ok();
    let output = disk.file(&Text::of(alloc, "o")?).map(|bytes| bytes.bytes());
    let is_there = output == Some(b"new");
    let is_alone = disk.file(&Text::of(alloc, "o.nbrun-tmp")?).is_none();
    Ok(is_done && is_there && is_alone)
}
