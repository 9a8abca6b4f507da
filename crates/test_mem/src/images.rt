//! Images of what a crash leaves.
use crate::seen::SeenCrash;
use crate::worlds::{plain_script, world};
use jtext::{NoMemory, Text};
use std::alloc::Global;
use std::test::Fail;
use world::{Did, Disk, Wrote};
use world_mem::{Files, ImageFault};

/// Whether the file at a path has these bytes, or there is none.
pub(crate) fn stands(files: &Files, path: &str, wanted: Option<&[u8]>) -> bool {
    for (name, bytes) in files.as_slice() {
        if name.as_str() == path {
            return Some(bytes.bytes()) == wanted;
        }
    }
    wanted.is_none()
}

/// Whether after so many entries each image has one of these two at a path, for the first 64 choices.
pub(crate) fn always<W: SeenCrash>(
    w: &W,
    t: u64,
    path: &str,
    one: Option<&[u8]>,
    other: Option<&[u8]>,
) -> Result<bool, ImageFault> {
    for choice in 0..64 {
        let files = w.left(t, choice)?;
        if !stands(&files, path, one) && !stands(&files, path, other) {
            return Ok(false);
        }
    }
    Ok(true)
}

// Makes two empty files.
fn create_two<W: Disk>(w: &mut W, alloc: Global) -> Result<bool, NoMemory> {
    let c = Text::of(alloc, "c")?;
    let a = Text::of(alloc, "a")?;
    Ok(w.create(&c) == Did::Done && w.create(&a) == Did::Done)
}

// Whether the image of this choice has these bytes at `a` and `c`, and the old ones at `b`.
fn picks<W: SeenCrash>(
    w: &W,
    t: u64,
    choice: u64,
    a: Option<&[u8]>,
    c: Option<&[u8]>,
) -> Result<bool, ImageFault> {
    let files = w.left(t, choice)?;
    Ok(stands(&files, "a", a) && stands(&files, "b", Some(b"old")) && stands(&files, "c", c))
}

// Whether the digits of a number pick what stands at `a` and then at `c`, two files that were made.
fn picks_by_digits<W: SeenCrash>(w: &mut W, alloc: Global) -> Result<bool, Fail> {
    let made = create_two(w, alloc)?;
    Ok(
        made && picks(w, 2, 0, None, None)?
            && picks(w, 2, 1, Some(b""), None)?
            && picks(w, 2, 2, Some(b"X"), None)?
            && picks(w, 2, 3, None, Some(b""))?
            && picks(w, 2, 8, Some(b"X"), Some(b"X"))?
            && picks(w, 1, 1, None, Some(b""))?,
    )
}

#[test]
fn digits_pick_options_in_the_order_of_paths(rt: HostRuntime) -> Result<(), Fail> {
    let alloc = rt.alloc();
    let mut w = world(alloc, &[("b", "old")], 0, plain_script(alloc, &[])?)?;
    let picks = picks_by_digits(&mut w, alloc);
    drop(w);
    assert!(rt; picks?);
    Ok(())
}

// Whether after so many entries one of the first 64 images has these bytes at a path.
fn may_be<W: SeenCrash>(
    w: &W,
    t: u64,
    path: &str,
    wanted: Option<&[u8]>,
) -> Result<bool, ImageFault> {
    for choice in 0..64 {
        if stands(&w.left(t, choice)?, path, wanted) {
            return Ok(true);
        }
    }
    Ok(false)
}

// A file is removed: a crash leaves it or takes it away.
fn removes<W: SeenCrash>(w: &mut W, alloc: Global) -> Result<bool, Fail> {
    let is_done = w.remove(&Text::of(alloc, "a")?) == Did::Done;
    Ok(
        is_done
            && may_be(w, 1, "a", Some(b"old"))?
            && may_be(w, 1, "a", None)?
            && always(w, 1, "a", Some(b"old"), None)?,
    )
}

#[test]
fn a_removed_file_may_stand_after_a_crash(rt: HostRuntime) -> Result<(), Fail> {
    let alloc = rt.alloc();
    let mut w = world(alloc, &[("a", "old")], 0, plain_script(alloc, &[])?)?;
    let is_so = removes(&mut w, alloc);
    drop(w);
    assert!(rt; is_so?);
    Ok(())
}

// Makes a file, and syncs it under the name that it has then.
fn sync_the_new_name<W: Disk>(w: &mut W, alloc: Global) -> Result<bool, NoMemory> {
    let a = Text::of(alloc, "a")?;
    let b = Text::of(alloc, "b")?;
    Ok(
        w.create(&a) == Did::Done
            && w.write(&a, b"x") == Wrote::Took(1)
            && w.rename(&a, &b) == Did::Done
            && w.sync(&b) == Did::Done,
    )
}

// The sync tells nothing of what was written under the other name.
fn opens_the_new_name<W: SeenCrash>(w: &mut W, alloc: Global) -> Result<bool, Fail> {
    let is_done = sync_the_new_name(w, alloc)?;
    Ok(
        is_done
            && may_be(w, 4, "b", None)?
            && may_be(w, 4, "b", Some(b""))?
            && may_be(w, 4, "b", Some(b"X"))?,
    )
}

#[test]
fn a_file_that_is_synced_under_its_new_name_alone_may_be_anything(
    rt: HostRuntime,
) -> Result<(), Fail> {
    let alloc = rt.alloc();
    let mut w = world(alloc, &[], 0, plain_script(alloc, &[])?)?;
    let is_so = opens_the_new_name(&mut w, alloc);
    drop(w);
    assert!(rt; is_so?);
    Ok(())
}
