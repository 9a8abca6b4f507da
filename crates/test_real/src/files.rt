//! Files: each call does what it says, and one that the system refuses is a counted failure.
use crate::worlds::{Real, real_world, start_script, status, text};
use std::os::unix::fs::{MetadataExt, PermissionsExt};
use std::process::Abort;
use std::test::Fail;
use std::{env, fs};
use world::{Did, Disk, Kids, ReadFile, Wrote};

/// What the world reads there, at most so many bytes.
fn found(rt: &HostRuntime, w: &mut Real, path: &str, most: u64) -> Result<ReadFile, Fail> {
    Ok(w.read_file(rt.alloc(), &text(rt, path)?, most))
}

/// Whether the file has just these bytes.
fn holds(rt: &HostRuntime, path: &str, bytes: &[u8]) -> Result<bool, Fail> {
    Ok(fs::read(rt, path)?.as_slice() == bytes)
}

#[test]
fn pieces_are_appended_to_an_emptied_file(rt: HostRuntime) -> Result<(), Fail> {
    let mut w = real_world(&rt)?;
    let end = append_pieces(&rt, &rt, &mut w);
    drop(w);
    end
}

fn append_pieces(rt: &HostRuntime, stop: &impl Abort, w: &mut Real) -> Result<(), Fail> {
    fs::write(rt, "pieces", "what was there")?;
    let path = text(rt, "pieces")?;
    assert_eq!(stop; w.create(&path), Did::Done);
    assert!(stop; holds(rt, "pieces", b"")?);
    assert_eq!(stop; Disk::write(w, &path, b"one "), Wrote::Took(4));
    assert_eq!(stop; Disk::write(w, &path, b"two"), Wrote::Took(3));
    assert_eq!(stop; w.sync(&path), Did::Done);
    assert!(stop; holds(rt, "pieces", b"one two")?);
    assert_eq!(stop; w.remove(&path), Did::Done);
    assert!(stop; fs::read(rt, "pieces").is_err());
    assert_eq!(stop; w.disk_faults(), 0);
    Ok(())
}

#[test]
fn a_file_is_read_whole_up_to_a_limit(rt: HostRuntime) -> Result<(), Fail> {
    let mut w = real_world(&rt)?;
    let end = read_up_to_a_limit(&rt, &rt, &mut w);
    drop(w);
    end
}

fn read_up_to_a_limit(rt: &HostRuntime, stop: &impl Abort, w: &mut Real) -> Result<(), Fail> {
    fs::write(rt, "seven", "1234567")?;
    let rows = [
        (0, false),
        (6, false),
        (7, true),
        (8, true),
        (u64::MAX, true),
    ];
    for (most, whole) in rows {
        match found(rt, w, "seven", most)? {
            ReadFile::Whole(bytes) => {
                assert!(stop;
                    whole && bytes.bytes() == b"1234567".as_slice(),
                    "at most {most}"
                );
            }
            ReadFile::Big => assert!(stop; !whole, "at most {most}"),
            _ => assert!(stop; false, "at most {most}"),
        }
    }
    assert_eq!(stop; w.disk_faults(), 0);
    fs::remove_file(rt, "seven")?;
    Ok(())
}

#[test]
fn a_file_of_32_mib_is_whole_and_one_byte_more_is_too_many(rt: HostRuntime) -> Result<(), Fail> {
    let mut w = real_world(&rt)?;
    let end = read_most(&rt, &rt, &mut w);
    drop(w);
    end
}

fn read_most(rt: &HostRuntime, stop: &impl Abort, w: &mut Real) -> Result<(), Fail> {
    let script = "head -c 33554432 /dev/zero > most; head -c 33554433 /dev/zero > large";
    assert!(stop; start_script(rt, w, 0, script)?);
    assert_eq!(stop; status(w, 0), Some(0));
    w.end(0);
    match found(rt, w, "most", 33_554_432)? {
        ReadFile::Whole(bytes) => assert_eq!(stop; bytes.len(), 33_554_432),
        _ => assert!(stop; false, "not whole"),
    }
    match found(rt, w, "large", 33_554_432)? {
        ReadFile::Big => {}
        _ => assert!(stop; false, "not too big"),
    }
    fs::remove_file(rt, "most")?;
    fs::remove_file(rt, "large")?;
    Ok(())
}

#[test]
fn a_rename_moves_the_first_name_onto_the_second(rt: HostRuntime) -> Result<(), Fail> {
    let mut w = real_world(&rt)?;
    let end = rename_onto(&rt, &rt, &mut w);
    drop(w);
    end
}

fn rename_onto(rt: &HostRuntime, stop: &impl Abort, w: &mut Real) -> Result<(), Fail> {
    fs::write(rt, "moved-to", "old")?;
    let (from, to) = (text(rt, "moved-from")?, text(rt, "moved-to")?);
    assert_eq!(stop; w.create(&from), Did::Done);
    assert_eq!(stop; Disk::write(w, &from, b"new"), Wrote::Took(3));
    assert_eq!(stop; w.rename(&from, &to), Did::Done);
    assert!(stop; fs::read(rt, "moved-from").is_err());
    assert!(stop; holds(rt, "moved-to", b"new")?);
    assert_eq!(stop; w.sync_dir(&text(rt, ".")?), Did::Done);
    fs::remove_file(rt, "moved-to")?;
    Ok(())
}

#[test]
fn what_the_system_refuses_fails_and_is_counted(rt: HostRuntime) -> Result<(), Fail> {
    let mut w = real_world(&rt)?;
    let end = call_in_vain(&rt, &rt, &mut w);
    drop(w);
    end
}

fn call_in_vain(rt: &HostRuntime, stop: &impl Abort, w: &mut Real) -> Result<(), Fail> {
    let (absent, inside) = (text(rt, "absent")?, text(rt, "absent/file")?);
    assert_eq!(stop; w.sync(&absent), Did::Failed);
    assert_eq!(stop; w.sync_dir(&absent), Did::Failed);
    assert_eq!(stop; w.rename(&absent, &inside), Did::Failed);
    assert_eq!(stop; w.remove(&absent), Did::Failed);
    assert_eq!(stop; w.create(&inside), Did::Failed);
    assert_eq!(stop; Disk::write(w, &absent, b"x"), Wrote::Failed);
    assert_eq!(stop; w.disk_faults(), 6);
    assert!(stop; matches!(&found(rt, w, "absent", 9)?, ReadFile::Failed));
    assert!(stop;
        matches!(&found(rt, w, ".", 9)?, ReadFile::Failed),
        "a folder"
    );
    assert_eq!(stop; w.disk_faults(), 8);
    Ok(())
}

/// As a program of its own, with a word behind its test's name: writes a file until the system takes
/// no more. As a test it does nothing.
#[test]
fn writes_until_refused(rt: HostRuntime) -> Result<(), Fail> {
    let mut args = env::args(&rt)?;
    args.next();
    args.next();
    let Some(path) = args.next() else {
        return Ok(());
    };
    let mut w = real_world(&rt)?;
    let path = text(&rt, path.as_str())?;
    assert_eq!(rt; w.create(&path), Did::Done);
    for _ in 0..100u32 {
        if Disk::write(&mut w, &path, [7; 512].as_slice()) == Wrote::Failed {
            assert_eq!(rt; w.disk_faults(), 1);
            return Ok(());
        }
    }
    Err("all was taken".into())
}

#[test]
fn a_file_that_may_not_grow_takes_nothing(rt: HostRuntime) -> Result<(), Fail> {
    let mut w = real_world(&rt)?;
    let program = env::args(&rt)?.next().ok_or("no name")?;
    let program = program.as_str();
    let script = format!(in rt.alloc();
        "trap '' XFSZ; ulimit -f 4; exec {program} files::writes_until_refused limited"
    )?;
    assert!(rt; start_script(&rt, &mut w, 0, script.as_str())?);
    assert_eq!(rt; status(&mut w, 0), Some(0));
    w.end(0);
    assert!(rt; fs::metadata(&rt, "limited")?.len() < 8192);
    fs::remove_file(&rt, "limited")?;
    Ok(())
}

#[test]
fn a_connection_file_is_for_its_owner_alone(rt: HostRuntime) -> Result<(), Fail> {
    let mut w = real_world(&rt)?;
    let end = create_for_the_owner(&rt, &rt, &mut w);
    drop(w);
    end
}

fn create_for_the_owner(rt: &HostRuntime, stop: &impl Abort, w: &mut Real) -> Result<(), Fail> {
    fs::write(rt, "there.nbrun-kernel.json", "open to all")?;
    fs::set_permissions(
        rt,
        "there.nbrun-kernel.json",
        fs::Permissions::from_mode(0o666),
    )?;
    let rows = [
        ("there.nbrun-kernel.json", true),
        ("fresh.nbrun-kernel.json", true),
        ("fresh.nbrun-kernel.jso", false),
    ];
    for (path, alone) in rows {
        assert_eq!(stop; w.create(&text(rt, path)?), Did::Done, "{path}");
        let mode = fs::metadata(rt, path)?.mode() % 0o1000;
        assert_eq!(stop; mode == 0o600, alone, "{path} has {mode}");
        fs::remove_file(rt, path)?;
    }
    Ok(())
}
