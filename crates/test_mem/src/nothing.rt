//! The world and the kernel that do nothing.
ghost use Rattle.std.specs.Prelude.{◌<◌, ◌≤◌, ◌^◌, length};
ghost use Rattle.jtext.specs.Texts.{AllStrings};

use jtext::{Fields, Json, NoMemory, Text, Texts};
use std::alloc::Global;
use std::test::Fail;
use world::{
    Chan, Clock, Conn, Connected, Did, Disk, Entry, Give, Got, KernelSide, Kids, Put, Rand,
    ReadFile, Reports, Say, Wire, World, Wrote,
};
use world_mem::{NullKernel, NullWorld};

// The calls of the disk and of what is said, over any world: none is done.
fn does_nothing<W: Disk + Say>(w: &mut W, alloc: Global, path: &Text) -> bool {
    matches!(w.read_file(alloc, path, 9), ReadFile::Failed)
        && w.create(path) == Did::Failed
        && Disk::write(w, path, b"x") == Wrote::Failed
        && w.sync(path) == Did::Failed
        && w.rename(path, path) == Did::Failed
        && w.sync_dir(path) == Did::Failed
        && w.remove(path) == Did::Failed
        && Say::write(w, b"x") == Wrote::Failed
        && w.disk_faults() == 7
        && w.say_faults() == 1
}

// The calls on connections: nobody takes them up, and a wait reports none.
fn reaches_nobody<W: Wire>(w: &mut W, conn: Conn) -> bool
    requires { conn.job < 16 }
{
    let mut buf = [0u8; 4];
    let mut reports = Reports { ready: [true; 64] };
    let calls = w.free_ports(conn.job).is_none()
        && w.connect(conn, 9000) == Connected::Refused
        && w.read(conn, &mut buf) == Got::Dry
        && Wire::write(w, conn, b"x") == Put::Stuck
        && w.wait(500, &mut reports) == Did::Done;
    w.close(conn);
    calls && !reports.ready[0] && !reports.ready[63] && w.net_faults() == 1 && w.waits() == 1
}

// The calls on a child: none starts.
fn starts_nothing<W: Kids>(w: &mut W, argv: &Texts, env: &Fields, dir: &Text) -> bool
    requires some { 0 < length argv.now }
    requires strings { AllStrings env.now }
{
    let started = w.start(3, argv, env, dir);
    let looked = w.look(3);
    w.end(3);
    started == Did::Failed && looked.is_none() && w.child_faults() == 1
}

// The clock stands, and there is no random word.
fn stands_still<W: Clock + Rand>(w: &mut W) -> bool {
    let before = w.last();
    let now = w.now();
    before == 0 && now == w.last() && w.word().is_none() && w.rand_faults() == 1
}

// The same with a variable in the environment.
fn starts_nothing_in_env<W: Kids>(
    w: &mut W,
    alloc: Global,
    argv: &Texts,
    dir: &Text,
) -> Result<bool, NoMemory>
    requires { 0 < length argv.now }
{
    let mut env = Fields::new(alloc);
    env.push((Text::of(alloc, "A")?, Json::Str(Text::of(alloc, "1")?)))?;
    let is_null = starts_nothing(w, argv, &env, dir);
    drop(env);
    Ok(is_null)
}

// The same with a program.
fn starts_no_program<W: Kids>(w: &mut W, alloc: Global, dir: &Text) -> Result<bool, NoMemory> {
    let mut argv = Texts::new(alloc);
    argv.push(Text::of(alloc, "python3")?)?;
    let is_null = starts_nothing_in_env(w, alloc, &argv, dir);
    drop(argv);
    is_null
}

// All parts over one world, the calls on a child last.
fn is_null<W: World>(w: &mut W, alloc: Global, path: &Text) -> Result<bool, NoMemory> {
    let conn = Conn {
        job: 15,
        chan: Chan::Heart,
    };
    let is_null = does_nothing(w, alloc, path) && reaches_nobody(w, conn) && stands_still(w);
    Ok(is_null && starts_no_program(w, alloc, path)?)
}

// The same with a path.
fn is_null_at_a_path<W: World>(w: &mut W, alloc: Global) -> Result<bool, NoMemory> {
    let path = Text::of(alloc, "d/o")?;
    let is_null = is_null(w, alloc, &path);
    drop(path);
    is_null
}

// Whether these are the entries of 19 calls, with that of the ports and those of a child.
fn is_each_call(entries: &[Entry]) -> bool {
    entries.len() == 19
        && matches!(
            &entries[8],
            Entry::Ports {
                job: 15,
                ports: None
            }
        )
        && matches!(
            &entries[16],
            Entry::Started {
                job: 3,
                did: Did::Failed,
                ..
            }
        )
        && matches!(&entries[18], Entry::Killed { job: 3 })
}

// Whether a world tells each call.
fn tells_each_call(w: &NullWorld) -> bool {
    match w.journal() {
        Some(entries) => is_each_call(entries.as_slice()),
        None => false,
    }
}

#[test]
fn a_null_world_tells_each_call(rt: HostRuntime) -> Result<(), Fail> {
    let alloc = rt.alloc();
    let mut w = NullWorld::new(alloc);
    let is_null = is_null_at_a_path(&mut w, alloc);
    let is_told = tells_each_call(&w);
    drop(w);
    assert!(rt; is_null?);
    assert!(rt; is_told);
    Ok(())
}

// A kernel that takes up nothing and hands out nothing at this moment.
fn is_silent<K: KernelSide>(kernel: &mut K, alloc: Global, now: u64) -> bool
    requires bound { now < 2 ^ 47 }
    requires later { K.latest kernel.old ≤ now }
{
    let mut buf = [0u8; 4];
    kernel.tick(alloc, now).is_ok()
        && !kernel.accept(Chan::Shell, now)
        && kernel.take(alloc, Chan::Shell, now, b"x").is_ok()
        && !kernel.ready(Chan::Iopub, now)
        && kernel.give(Chan::Iopub, now, &mut buf) == Give::Nothing
        && kernel.exited(now).is_none()
}

#[test]
fn a_null_kernel_is_silent(rt: HostRuntime) -> Result<(), Fail> {
    let mut kernel = NullKernel::new();
    assert!(rt; is_silent(&mut kernel, rt.alloc(), 7));
    Ok(())
}
