//! Connections, waits, children and the clock.
ghost use Rattle.std.specs.Prelude.{◌<◌, length};
ghost use Rattle.jtext.specs.Texts.{AllStrings};

use crate::calls::{close, connect, gives, put, reports};
use crate::seen::SeenDisk;
use crate::worlds::{plain_script, script, world};
use jtext::{Fields, NoMemory, Text, Texts};
use std::alloc::Global;
use std::test::Fail;
use world::{Chan, Clock, Conn, Connected, Did, Entry, Kids, Put, Rand, Wire};

const SHELL: Conn = Conn {
    job: 0,
    chan: Chan::Shell,
};

const IOPUB: Conn = Conn {
    job: 0,
    chan: Chan::Iopub,
};

const OTHER: Conn = Conn {
    job: 1,
    chan: Chan::Shell,
};

// An entry of a connection in short: what it is, and how many bytes or the limit.
fn row(entry: &Entry) -> (&'static str, u64) {
    match entry {
        Entry::Connected { .. } => ("connected", 0),
        Entry::Waited { ms, .. } => ("waited", u64::from(*ms)),
        Entry::Moment { ms } => ("moment", *ms),
        Entry::Got { bytes, .. } => ("got", bytes.bytes().len() as u64),
        Entry::Dry { .. } => ("dry", 0),
        _ => ("other", 0),
    }
}

// Whether just these entries were told.
fn tells<W: SeenDisk>(w: &W, rows: &[(&str, u64)]) -> bool {
    let Some(entries) = w.entries() else {
        return false;
    };
    if entries.len() != rows.len() {
        return false;
    }
    for i in 0..rows.len() {
        let (what, number) = rows[i];
        let Some(entry) = entries.get(i) else {
            return false;
        };
        let found = row(entry);
        if found.0 != what || found.1 != number {
            return false;
        }
    }
    true
}

// 200,000 bytes are reported once and read in the buffer's room. A wait that reports doesn't move the
// clock, and an empty one moves it by its limit.
fn pours<W: Wire + Clock>(w: &mut W, buf: &mut [u8]) -> bool
    requires { 0 < length buf.old }
{
    connect(w, SHELL, 1001) == Connected::Begun
        && reports(w, 500, &[0])
        && w.now() == 0
        && gives(w, SHELL, buf, &[65_536, 65_536, 65_536, 3_392])
        && reports(w, 500, &[])
        && w.now() == 500
}

// The same by a buffer of 65,536 bytes.
fn pours_into_a_buffer<W: Wire + Clock>(w: &mut W, alloc: Global) -> Result<bool, Fail> {
    let mut buf = vec![in alloc; 0u8; 65_536]?;
    Ok(!buf.is_empty() && pours(w, &mut buf))
}

#[test]
fn bytes_come_in_the_buffers_room(rt: HostRuntime) -> Result<(), Fail> {
    let alloc = rt.alloc();
    let mut w = world(alloc, &[], 200_000, plain_script(alloc, &[])?)?;
    let pours = pours_into_a_buffer(&mut w, alloc);
    let is_told = tells(
        &w,
        &[
            ("connected", 0),
            ("waited", 500),
            ("moment", 0),
            ("got", 65_536),
            ("got", 65_536),
            ("got", 65_536),
            ("got", 3_392),
            ("dry", 0),
            ("waited", 500),
            ("moment", 500),
        ],
    );
    drop(w);
    assert!(rt; pours?);
    assert!(rt; is_told);
    Ok(())
}

// Reads of a connection are cut in turn, and again from the first cap, of which 0 counts as 1.
fn is_cut<W: Wire>(w: &mut W) -> bool {
    let mut buf = [0u8; 8];
    connect(w, SHELL, 1001) == Connected::Begun && gives(w, SHELL, &mut buf, &[2, 1, 3, 2, 1, 1])
}

#[test]
fn reads_are_cut_to_the_pieces_in_turn(rt: HostRuntime) -> Result<(), Fail> {
    let alloc = rt.alloc();
    let mut w = world(alloc, &[], 10, script(alloc, 0, &[2, 0, 3], 0)?)?;
    let is_cut = is_cut(&mut w);
    drop(w);
    assert!(rt; is_cut);
    Ok(())
}

// Two connects are refused, then one is begun; that of a job without a kernel is refused.
fn refuses_two<W: Wire>(w: &mut W) -> bool {
    connect(w, SHELL, 1001) == Connected::Refused
        && connect(w, IOPUB, 1002) == Connected::Refused
        && reports(w, 0, &[])
        && connect(w, SHELL, 1001) == Connected::Begun
        && connect(w, OTHER, 1006) == Connected::Refused
        && put(w, SHELL) == Put::Took(3)
        && reports(w, 0, &[0])
}

#[test]
fn the_first_connects_are_refused(rt: HostRuntime) -> Result<(), Fail> {
    let alloc = rt.alloc();
    let mut w = world(alloc, &[], 1, script(alloc, 0, &[], 2)?)?;
    let refuses = refuses_two(&mut w);
    drop(w);
    assert!(rt; refuses);
    Ok(())
}

// Just the connections that are up and have something to read are reported.
fn reports_exactly<W: Wire>(w: &mut W) -> bool {
    let mut buf = [0u8; 8];
    let open = connect(w, SHELL, 1001) == Connected::Begun
        && connect(w, IOPUB, 1002) == Connected::Begun
        && reports(w, 9, &[0, 2]);
    close(w, SHELL);
    let one = reports(w, 9, &[2]) && gives(w, IOPUB, &mut buf, &[1]) && reports(w, 9, &[]);
    close(w, IOPUB);
    open && one && reports(w, 9, &[])
}

#[test]
fn just_the_ready_connections_are_reported(rt: HostRuntime) -> Result<(), Fail> {
    let alloc = rt.alloc();
    let mut w = world(alloc, &[], 1, plain_script(alloc, &[])?)?;
    let is_exact = reports_exactly(&mut w);
    drop(w);
    assert!(rt; is_exact);
    Ok(())
}

// The clock moves to its last value, and no further.
fn runs_out<W: Wire + Clock>(w: &mut W) -> bool {
    reports(w, 1, &[])
        && w.now() == (1 << 47) - 2
        && reports(w, 500, &[])
        && w.now() == (1 << 47) - 1
}

#[test]
fn the_clock_stops_at_its_last_value(rt: HostRuntime) -> Result<(), Fail> {
    let alloc = rt.alloc();
    let mut w = world(alloc, &[], 0, script(alloc, (1 << 47) - 3, &[], 0)?)?;
    let stops = runs_out(&mut w);
    drop(w);
    assert!(rt; stops);
    Ok(())
}

// The ports of a job stand behind those of the jobs before it, and the words are counted from 0.
fn counts_up<W: Wire + Rand>(w: &mut W) -> bool {
    w.free_ports(0) == Some([1001, 1002, 1003, 1004, 1005])
        && w.free_ports(15) == Some([1076, 1077, 1078, 1079, 1080])
        && w.word() == Some(0)
        && w.word() == Some(1)
        && w.word() == Some(2)
}

#[test]
fn ports_and_words_are_numbered(rt: HostRuntime) -> Result<(), Fail> {
    let alloc = rt.alloc();
    let mut w = world(alloc, &[], 0, plain_script(alloc, &[])?)?;
    let counts = counts_up(&mut w);
    drop(w);
    assert!(rt; counts);
    Ok(())
}

// A child with a kernel is started, the other isn't.
fn starts_one<W: Kids>(w: &mut W, argv: &Texts, env: &Fields, dir: &Text) -> bool
    requires program { 0 < length argv.now }
    requires strings { AllStrings env.now }
{
    w.start(0, argv, env, dir) == Did::Done && w.start(1, argv, env, dir) == Did::Failed
}

// The same with a program, in a folder.
fn starts_one_there<W: Kids>(w: &mut W, alloc: Global, dir: &Text) -> Result<bool, NoMemory> {
    let mut argv = Texts::new(alloc);
    argv.push(Text::of(alloc, "toy")?)?;
    let is_one = starts_one(w, &argv, &Fields::new(alloc), dir);
    drop(argv);
    Ok(is_one)
}

// The same in the topmost folder.
fn starts_one_on_top<W: Kids>(w: &mut W, alloc: Global) -> Result<bool, NoMemory> {
    let dir = Text::of(alloc, "/")?;
    let is_one = starts_one_there(w, alloc, &dir);
    drop(dir);
    is_one
}

// The child is seen to end once the clock has come to its end.
fn ends_in_time<W: Wire + Kids>(w: &mut W) -> bool {
    let runs = w.look(0).is_none();
    let waits = reports(w, 1000, &[]);
    let ends = w.look(0) == Some(0) && w.look(1).is_none();
    w.end(0);
    runs && waits && ends
}

#[test]
fn a_child_is_seen_to_end(rt: HostRuntime) -> Result<(), Fail> {
    let alloc = rt.alloc();
    let mut w = world(alloc, &[], 0, plain_script(alloc, &[])?)?;
    let is_one = starts_one_on_top(&mut w, alloc);
    let ends = ends_in_time(&mut w);
    drop(w);
    assert!(rt; is_one?);
    assert!(rt; ends);
    Ok(())
}
