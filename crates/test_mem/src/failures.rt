//! One failing call at a time.
ghost use Rattle.std.specs.Prelude.{◌<◌, length};
ghost use Rattle.jtext.specs.Texts.{AllStrings};

use crate::seen::{SeenCrash, SeenDisk};
use crate::worlds::{plain_script, world};
use jtext::{Fields, NoMemory, Text, Texts};
use std::alloc::Global;
use std::test::Fail;
use world::{
    Chan, Clock, Conn, Connected, Did, Disk, Got, Kids, Put, Rand, ReadFile, Reports, Say, Wire,
    World, Wrote,
};

const SHELL: Conn = Conn {
    job: 0,
    chan: Chan::Shell,
};

// A read, a create, a write and a sync: which of them failed.
fn first_calls<W: Disk>(w: &mut W, alloc: Global, a: &Text, t: &Text) -> [bool; 4] {
    [
        matches!(w.read_file(alloc, a, 9), ReadFile::Failed),
        w.create(t) == Did::Failed,
        w.write(t, b"x") == Wrote::Failed,
        w.sync(t) == Did::Failed,
    ]
}

// A rename, a sync of a folder and a remove: which of them failed.
fn last_calls<W: Disk>(w: &mut W, t: &Text, b: &Text) -> [bool; 3] {
    [
        w.rename(t, b) == Did::Failed,
        w.sync_dir(t) == Did::Failed,
        w.remove(b) == Did::Failed,
    ]
}

// Whether what is to be said fails.
fn is_mute<W: Say>(w: &mut W) -> bool {
    w.write(b"x") == Wrote::Failed
}

// Whether a child can't be started.
fn is_childless<W: Kids>(w: &mut W, argv: &Texts, env: &Fields, dir: &Text) -> bool
    requires program { 0 < length argv.now }
    requires strings { AllStrings env.now }
{
    w.start(0, argv, env, dir) == Did::Failed
}

// Starts a child: whether that failed.
fn start_fails<W: Kids>(w: &mut W, alloc: Global) -> Result<bool, NoMemory> {
    let mut argv = Texts::new(alloc);
    argv.push(Text::of(alloc, "toy")?)?;
    let dir = Text::of(alloc, "/")?;
    Ok(is_childless(w, &argv, &Fields::new(alloc), &dir))
}

// Ports, a connect and a wait: which of them failed.
fn connecting_calls<W: Wire>(w: &mut W) -> [bool; 3] {
    let mut reports = Reports { ready: [false; 64] };
    [
        w.free_ports(0).is_none(),
        w.connect(SHELL, 1001) == Connected::Failed,
        w.wait(0, &mut reports) == Did::Failed,
    ]
}

// A read and a write of a connection: which of them failed.
fn connected_calls<W: Wire>(w: &mut W) -> [bool; 2] {
    let mut buf = [0u8; 4];
    [
        w.read(SHELL, &mut buf) == Got::Failed,
        w.write(SHELL, b"x") == Put::Failed,
    ]
}

// Whether there is no random word.
fn is_wordless<W: Rand>(w: &mut W) -> bool {
    w.word().is_none()
}

// The calls that can't fail.
fn sure_calls<W: Wire + Kids + Clock>(w: &mut W) {
    let _ = w.now();
    let _ = w.look(0);
    w.close(SHELL);
    w.end(0);
}

// The counts of files, connections, children, random words and what is said.
fn counts<W: World>(w: &W) -> [u64; 5] {
    [
        w.disk_faults(),
        w.net_faults(),
        w.child_faults(),
        w.rand_faults(),
        w.say_faults(),
    ]
}

// Whether the calls of the disk and of what is said fail where the call with this number is to:
// without its create a file is absent, and without the rename its new name.
fn disk_fails<W: Disk + Say>(w: &mut W, alloc: Global, number: u64) -> Result<bool, NoMemory> {
    let a = Text::of(alloc, "a")?;
    let t = Text::of(alloc, "t")?;
    let b = Text::of(alloc, "b")?;
    let first = first_calls(w, alloc, &a, &t);
    let last = last_calls(w, &t, &b);
    let mute = is_mute(w);
    let absent = number == 1;
    let unnamed = absent || number == 4;
    Ok(
        first
            == [
                number == 0,
                absent,
                absent || number == 2,
                absent || number == 3,
            ]
            && last == [unnamed, number == 5, unnamed || number == 6]
            && mute == (number == 7),
    )
}

// Whether the other calls fail where this one is to.
fn others_fail<W: World>(w: &mut W, alloc: Global, number: u64) -> Result<bool, NoMemory> {
    let childless = start_fails(w, alloc)?;
    let connecting = connecting_calls(w);
    let connected = connected_calls(w);
    let wordless = is_wordless(w);
    sure_calls(w);
    Ok(
        childless == (number == 8)
            && connecting == [number == 9, number == 10, number == 11]
            && connected == [number == 12, number == 13]
            && wordless == (number == 14),
    )
}

// How often the calls of each part fail where this one is to.
fn faults(number: u64) -> [u64; 5] {
    match number {
        0 | 2 | 3 | 5 | 6 => [1, 0, 0, 0, 0],
        1 => [5, 0, 0, 0, 0],
        4 => [2, 0, 0, 0, 0],
        7 => [0, 0, 0, 0, 1],
        8 => [0, 0, 1, 0, 0],
        14 => [0, 0, 0, 1, 0],
        9..14 => [0, 1, 0, 0, 0],
        _ => [0, 0, 0, 0, 0],
    }
}

// Whether just this call fails, and what needs it, and its count has risen.
fn fails_alone<W: World + SeenDisk>(
    w: &mut W,
    alloc: Global,
    number: u64,
) -> Result<bool, NoMemory> {
    let disk = disk_fails(w, alloc, number)?;
    let others = others_fail(w, alloc, number)?;
    Ok(disk && others && counts(w) == faults(number) && w.refused_memory() == 0)
}

fn fails_by_number(alloc: Global, number: u64) -> Result<bool, NoMemory> {
    let mut w = world(alloc, &[("a", "text")], 9, plain_script(alloc, &[number])?)?;
    let end = fails_alone(&mut w, alloc, number);
    drop(w);
    end
}

#[test]
fn calls_fail_by_their_numbers_alone(rt: HostRuntime) -> Result<(), Fail> {
    for number in 0..19 {
        assert!(rt;
            fails_by_number(rt.alloc(), number)?,
            "with {number} to fail"
        );
    }
    Ok(())
}

// Whether just the calls of the disk behind a fuse fail.
fn burns<W: SeenCrash>(w: &mut W, alloc: Global, fuse: u64) -> Result<bool, NoMemory> {
    w.burn(fuse);
    let a = Text::of(alloc, "a")?;
    let t = Text::of(alloc, "t")?;
    let b = Text::of(alloc, "b")?;
    let first = first_calls(w, alloc, &a, &t);
    let last = last_calls(w, &t, &b);
    Ok(
        first == [fuse <= 0, fuse <= 1, fuse <= 2, fuse <= 3]
            && last == [fuse <= 4, fuse <= 5, fuse <= 6]
            && !is_mute(w),
    )
}

fn fails_by_fuse(alloc: Global, fuse: u64) -> Result<bool, NoMemory> {
    let files = [("a", "text"), ("t", ""), ("b", "")];
    let mut w = world(alloc, &files, 0, plain_script(alloc, &[])?)?;
    let end = burns(&mut w, alloc, fuse);
    drop(w);
    end
}

#[test]
fn a_spent_fuse_fails_every_call_of_the_disk(rt: HostRuntime) -> Result<(), Fail> {
    for fuse in 0..8 {
        assert!(rt; fails_by_fuse(rt.alloc(), fuse)?, "with a fuse of {fuse}");
    }
    Ok(())
}
