//! Saves over the disk in memory, and what a crash leaves at each moment of them.
ghost use Rattle.std.specs.Prelude.{◌<◌, length};

use crate::images::{always, stands};
use crate::seen::{SeenCrash, SeenDisk};
use crate::worlds::{plain_script, world};
use jtext::{NoMemory, Text};
use save_disk::{SaveFault, SavePath, save};
use std::alloc::Global;
use std::test::Fail;
use world::Disk;
use world_mem::ImageFault;

/// The bytes that a file may have, one or the other, or no file.
type Either<'a> = [Option<&'a [u8]>; 2];

/// The bytes before a save and after it.
const OLD_OR_NEW: Either<'static> = [Some(b"old"), Some(b"new")];

// Saves a text at a path.
fn replace<W: Disk>(w: &mut W, path: &SavePath, text: &[u8]) -> Result<(), SaveFault>
    requires { 0 < length text.now }
{
    save(w, path, text)
}

// Saves a text to an output.
fn save_to<W: Disk>(
    w: &mut W,
    alloc: Global,
    output: &str,
    text: &[u8],
) -> Result<Result<(), SaveFault>, NoMemory>
    requires { 0 < length text.now }
{
    let path = SavePath::of(alloc, &Text::of(alloc, output)?)?;
    Ok(replace(w, &path, text))
}

// The number of entries, and 0 where they aren't told.
fn told<W: SeenDisk>(w: &W) -> u64 {
    match w.entries() {
        Some(entries) => entries.len() as u64,
        None => 0,
    }
}

// Whether after each number of entries between these, both included, each image has one of these two
// at a path.
fn is_ever<W: SeenCrash>(
    w: &W,
    from: u64,
    to: u64,
    path: &str,
    either: Either<'_>,
) -> Result<bool, ImageFault> {
    for t in from..=to {
        if !always(w, t, path, either[0], either[1])? {
            return Ok(false);
        }
    }
    Ok(true)
}

// Whether a crash after so many entries may leave no file, an empty one or any other at a path.
fn is_open<W: SeenCrash>(w: &W, t: u64, path: &str) -> Result<bool, ImageFault> {
    Ok(
        stands(&w.left(t, 0)?, path, None)
            && stands(&w.left(t, 1)?, path, Some(b""))
            && stands(&w.left(t, 2)?, path, Some(b"X")),
    )
}

// Whether there is no image one entry past the journal.
fn ends_there<W: SeenCrash>(w: &W) -> bool {
    matches!(w.left(told(w).saturating_add(1), 0), Err(ImageFault::Past))
}

// A save of a new file: until its end a crash leaves no file or the whole one, and then the whole one.
fn makes_a_file<W: SeenCrash>(w: &mut W, alloc: Global) -> Result<bool, Fail> {
    let answer = save_to(w, alloc, "d/o", b"x")?;
    Ok(
        answer == Ok(())
            && told(w) == 5
            && is_ever(w, 0, 4, "d/o", [None, Some(b"x")])?
            && is_ever(w, 5, 5, "d/o", [Some(b"x"), Some(b"x")])?
            && is_ever(w, 0, 5, "d/i", [Some(b"in"), Some(b"in")])?
            && ends_there(w),
    )
}

#[test]
fn a_new_file_is_absent_or_whole(rt: HostRuntime) -> Result<(), Fail> {
    let alloc = rt.alloc();
    let mut w = world(alloc, &[("d/i", "in")], 0, plain_script(alloc, &[])?)?;
    let makes = makes_a_file(&mut w, alloc);
    drop(w);
    assert!(rt; makes?);
    Ok(())
}

// The temporary file of a save may be anything until its sync, and whole or absent from then on.
// Without a crash it is gone.
fn opens_the_temporary<W: SeenCrash>(w: &mut W, alloc: Global) -> Result<bool, Fail> {
    let path = "d/o.nbrun-tmp";
    let answer = save_to(w, alloc, "d/o", b"x")?;
    let gone = w.bytes_at(&Text::of(alloc, path)?).is_none();
    Ok(
        answer == Ok(())
            && gone
            && is_open(w, 1, path)?
            && is_open(w, 2, path)?
            && is_ever(w, 3, 5, path, [None, Some(b"x")])?,
    )
}

#[test]
fn the_temporary_file_may_be_anything_until_its_sync(rt: HostRuntime) -> Result<(), Fail> {
    let alloc = rt.alloc();
    let mut w = world(alloc, &[], 0, plain_script(alloc, &[])?)?;
    let opens = opens_the_temporary(&mut w, alloc);
    drop(w);
    assert!(rt; opens?);
    Ok(())
}

// Two saves, and a third whose rename fails.
fn save_thrice<W: Disk>(w: &mut W, alloc: Global) -> Result<bool, NoMemory> {
    Ok(
        save_to(w, alloc, "o", b"1")? == Ok(())
            && save_to(w, alloc, "o", b"2")? == Ok(())
            && save_to(w, alloc, "o", b"3")? == Err(SaveFault::Rename),
    )
}

// What a crash leaves of these three: from the end of a save on it is that one or the next, the third
// among them.
fn leaves_each<W: SeenCrash>(w: &mut W, alloc: Global) -> Result<bool, Fail> {
    let saves = save_thrice(w, alloc)?;
    Ok(
        saves
            && told(w) == 14
            && is_ever(w, 0, 4, "o", [Some(b"0"), Some(b"1")])?
            && is_ever(w, 5, 9, "o", [Some(b"1"), Some(b"2")])?
            && is_ever(w, 10, 14, "o", [Some(b"2"), Some(b"3")])?
            && !is_ever(w, 14, 14, "o", [Some(b"2"), Some(b"2")])?,
    )
}

#[test]
fn a_failed_rename_leaves_the_last_save_or_its_own(rt: HostRuntime) -> Result<(), Fail> {
    let alloc = rt.alloc();
    let mut w = world(alloc, &[("o", "0")], 0, plain_script(alloc, &[13])?)?;
    let leaves = leaves_each(&mut w, alloc);
    drop(w);
    assert!(rt; leaves?);
    Ok(())
}

/// The answers of a save whose call with the index fails. It makes five.
const ANSWERS: [Result<(), SaveFault>; 6] = [
    Err(SaveFault::Write),
    Err(SaveFault::Write),
    Err(SaveFault::Sync),
    Err(SaveFault::Rename),
    Err(SaveFault::DirSync),
    Ok(()),
];

// Whether a save answers so, and leaves the old bytes or the new ones at each moment of it.
fn leaves_either<W: SeenCrash>(
    w: &mut W,
    alloc: Global,
    output: &str,
    answer: Result<(), SaveFault>,
) -> Result<bool, Fail> {
    let found = save_to(w, alloc, output, b"new")?;
    Ok(found == answer && is_ever(w, 0, told(w), output, OLD_OR_NEW)?)
}

// The same where the call with this number fails.
fn leaves_by_number(
    alloc: Global,
    number: u64,
    answer: Result<(), SaveFault>,
) -> Result<bool, Fail> {
    let mut w = world(alloc, &[("o", "old")], 0, plain_script(alloc, &[number])?)?;
    let end = leaves_either(&mut w, alloc, "o", answer);
    drop(w);
    end
}

#[test]
fn a_save_with_a_failing_call_leaves_old_or_new(rt: HostRuntime) -> Result<(), Fail> {
    for (number, answer) in ANSWERS.iter().enumerate() {
        assert!(rt;
            leaves_by_number(rt.alloc(), number as u64, *answer)?,
            "with {number} to fail"
        );
    }
    Ok(())
}

// The same behind a fuse.
fn burns_between<W: SeenCrash>(
    w: &mut W,
    alloc: Global,
    fuse: u64,
    answer: Result<(), SaveFault>,
) -> Result<bool, Fail> {
    w.burn(fuse);
    leaves_either(w, alloc, "o", answer)
}

fn leaves_by_fuse(alloc: Global, fuse: u64, answer: Result<(), SaveFault>) -> Result<bool, Fail> {
    let mut w = world(alloc, &[("o", "old")], 0, plain_script(alloc, &[])?)?;
    let end = burns_between(&mut w, alloc, fuse, answer);
    drop(w);
    end
}

#[test]
fn a_save_behind_a_fuse_leaves_old_or_new(rt: HostRuntime) -> Result<(), Fail> {
    for (fuse, answer) in ANSWERS.iter().enumerate() {
        assert!(rt;
            leaves_by_fuse(rt.alloc(), fuse as u64, *answer)?,
            "with a fuse of {fuse}"
        );
    }
    Ok(())
}

// Whether a save to this output leaves old or new until its end, and then the new text alone.
fn replaces<W: SeenCrash>(w: &mut W, alloc: Global, output: &str) -> Result<bool, Fail> {
    let either = leaves_either(w, alloc, output, Ok(()))?;
    let last = told(w);
    let path = Text::of(alloc, output)?;
    Ok(
        either
            && is_ever(w, last, last, output, [Some(b"new"), Some(b"new")])?
            && w.bytes_at(&path) == Some(b"new"),
    )
}

fn is_replaced(alloc: Global, output: &str) -> Result<bool, Fail> {
    let mut w = world(alloc, &[(output, "old")], 0, plain_script(alloc, &[])?)?;
    let end = replaces(&mut w, alloc, output);
    drop(w);
    end
}

#[test]
fn an_output_is_replaced_wherever_it_stands(rt: HostRuntime) -> Result<(), Fail> {
    for output in ["d/o", "o", "/o", "d/../o"] {
        assert!(rt; is_replaced(rt.alloc(), output)?, "{output}");
    }
    Ok(())
}
