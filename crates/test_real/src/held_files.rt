//! Files that another name, another run or a killed run left in the way.
use crate::worlds::{Real, real_world, start_script, status, text};
use std::os::unix::fs::symlink;
use std::process::Abort;
use std::test::Fail;
use std::{env, fs};
use world::{Did, Disk, Kids, Reports, Wire, Wrote};

/// Makes a file of these bytes.
fn make(rt: &HostRuntime, w: &mut Real, path: &str, bytes: &[u8]) -> Result<Did, Fail> {
    let path = text(rt, path)?;
    if w.create(&path) == Did::Failed {
        return Ok(Did::Failed);
    }
    if !bytes.is_empty() {
        Disk::write(w, &path, bytes);
    }
    Ok(Did::Done)
}

/// Gives a file that name.
fn rename(rt: &HostRuntime, w: &mut Real, from: &str, to: &str) -> Result<Did, Fail> {
    Ok(w.rename(&text(rt, from)?, &text(rt, to)?))
}

fn holds(rt: &HostRuntime, path: &str, bytes: &[u8]) -> Result<bool, Fail> {
    Ok(fs::read(rt, path)?.as_slice() == bytes)
}

#[test]
fn a_link_under_the_name_is_not_followed(rt: HostRuntime) -> Result<(), Fail> {
    let mut w = real_world(&rt)?;
    fs::write(&rt, "linked-target", "kept")?;
    symlink(&rt, "linked-target", "linked-tmp")?;
    assert_eq!(rt; make(&rt, &mut w, "linked-tmp", b"new")?, Did::Done);
    assert!(rt; holds(&rt, "linked-target", b"kept")?);
    assert!(rt; holds(&rt, "linked-tmp", b"new")?);
    assert!(rt; !fs::symlink_metadata(&rt, "linked-tmp")?.is_symlink());
    assert_eq!(rt; w.disk_faults(), 0);
    fs::remove_file(&rt, "linked-tmp")?;
    fs::remove_file(&rt, "linked-target")?;
    Ok(())
}

#[test]
fn what_took_the_place_of_a_file_is_not_renamed(rt: HostRuntime) -> Result<(), Fail> {
    let mut w = real_world(&rt)?;
    fs::write(&rt, "out", "old")?;
    assert_eq!(rt; make(&rt, &mut w, "out-tmp", b"ours")?, Did::Done);
    fs::remove_file(&rt, "out-tmp")?;
    fs::write(&rt, "out-tmp", "theirs")?;
    assert_eq!(rt;
        Disk::write(&mut w, &text(&rt, "out-tmp")?, b"more"),
        Wrote::Took(4)
    );
    assert_eq!(rt; rename(&rt, &mut w, "out-tmp", "out")?, Did::Failed);
    assert_eq!(rt; w.remove(&text(&rt, "out-tmp")?), Did::Failed);
    assert!(rt; holds(&rt, "out", b"old")? && holds(&rt, "out-tmp", b"theirs")?);
    assert_eq!(rt; w.disk_faults(), 2);
    fs::remove_file(&rt, "out")?;
    fs::remove_file(&rt, "out-tmp")?;
    Ok(())
}

#[test]
fn nothing_but_a_regular_file_is_replaced(rt: HostRuntime) -> Result<(), Fail> {
    let mut w = real_world(&rt)?;
    fs::create_dir(&rt, "a-folder")?;
    assert!(rt; start_script(&rt, &mut w, 0, "mkfifo a-pipe")?);
    assert_eq!(rt; status(&mut w, 0), Some(0));
    w.end(0);
    symlink(&rt, "a-folder", "to-folder")?;
    symlink(&rt, "a-pipe", "to-pipe")?;
    symlink(&rt, "/dev/null", "to-device")?;
    symlink(&rt, "/proc/self/exe", "to-stream")?;
    let barred = [
        "a-folder",
        "a-pipe",
        "to-folder",
        "to-pipe",
        "to-device",
        "to-stream",
        "/dev/stdout",
    ];
    for path in barred {
        let before = fs::symlink_metadata(&rt, path)?.file_type();
        assert_eq!(rt; make(&rt, &mut w, "barred", b"x")?, Did::Done);
        assert_eq!(rt; rename(&rt, &mut w, "barred", path)?, Did::Failed, "{path}");
        assert!(rt;
            fs::symlink_metadata(&rt, path)?.file_type() == before,
            "{path}"
        );
    }
    assert_eq!(rt; w.disk_faults(), 7);
    fs::write(&rt, "a-file", "kept")?;
    symlink(&rt, "a-file", "to-file")?;
    symlink(&rt, "absent", "to-nothing")?;
    for path in ["to-file", "to-nothing"] {
        assert_eq!(rt; make(&rt, &mut w, "barred", b"x")?, Did::Done);
        assert_eq!(rt; rename(&rt, &mut w, "barred", path)?, Did::Done, "{path}");
        assert!(rt; fs::symlink_metadata(&rt, path)?.is_file(), "{path}");
    }
    assert!(rt; holds(&rt, "a-file", b"kept")? && holds(&rt, "to-file", b"x")?);
    let made = [
        "a-pipe",
        "to-folder",
        "to-pipe",
        "to-device",
        "to-stream",
        "a-file",
        "to-file",
        "to-nothing",
    ];
    for path in made {
        fs::remove_file(&rt, path)?;
    }
    fs::remove_dir(&rt, "a-folder")?;
    Ok(())
}

#[test]
fn a_file_that_another_run_holds_stays(rt: HostRuntime) -> Result<(), Fail> {
    let mut first = real_world(&rt)?;
    let mut second = real_world(&rt)?;
    let path = "held.nbrun-kernel.json";
    assert_eq!(rt; make(&rt, &mut first, path, b"first")?, Did::Done);
    assert_eq!(rt; make(&rt, &mut second, path, b"second")?, Did::Failed);
    assert_eq!(rt; second.remove(&text(&rt, path)?), Did::Failed);
    assert!(rt; holds(&rt, path, b"first")?);
    let complaint = second.complaint().ok_or("no complaint")?;
    let error = format!(in rt.alloc(); "{}", complaint.error)?;
    assert_eq!(rt; error.as_str(), "another run has the file in use");
    assert_eq!(rt; first.remove(&text(&rt, path)?), Did::Done);
    assert_eq!(rt; make(&rt, &mut second, path, b"second")?, Did::Done);
    assert_eq!(rt; second.remove(&text(&rt, path)?), Did::Done);
    assert_eq!(rt; (first.disk_faults(), second.disk_faults()), (0, 2));
    Ok(())
}

/// As a program of its own, with a path behind its test's name: makes that file, and holds it for
/// 30 seconds. As a test it does nothing.
#[test]
fn holds_a_file(rt: HostRuntime) -> Result<(), Fail> {
    let mut args = env::args(&rt)?;
    args.next();
    args.next();
    let Some(path) = args.next() else {
        return Ok(());
    };
    let mut w = real_world(&rt)?;
    assert_eq!(rt; make(&rt, &mut w, path.as_str(), b"owned")?, Did::Done);
    let mut reports = Reports { ready: [false; 64] };
    w.wait(30_000, &mut reports);
    Ok(())
}

#[test]
fn the_file_of_a_killed_run_is_taken_over(rt: HostRuntime) -> Result<(), Fail> {
    let mut w = real_world(&rt)?;
    let path = "killed.nbrun-kernel.json";
    let program = env::args(&rt)?.next().ok_or("no name")?;
    let program = program.as_str();
    let script = format!(in rt.alloc(); "exec {program} held_files::holds_a_file {path}")?;
    assert!(rt; start_script(&rt, &mut w, 0, script.as_str())?);
    let mut reports = Reports { ready: [false; 64] };
    for _ in 0..2000u32 {
        if fs::read(&rt, path).is_ok_and(|bytes| bytes.as_slice() == b"owned".as_slice()) {
            break;
        }
        w.wait(10, &mut reports);
    }
    assert_eq!(rt; make(&rt, &mut w, path, b"ours")?, Did::Failed, "it lives");
    w.end(0);
    assert_eq!(rt;
        make(&rt, &mut w, path, b"ours")?,
        Did::Done,
        "it was killed"
    );
    assert!(rt; holds(&rt, path, b"ours")?);
    assert_eq!(rt; w.remove(&text(&rt, path)?), Did::Done);
    Ok(())
}
