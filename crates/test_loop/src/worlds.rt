//! Worlds in memory for the tests, and what they tell.
ghost use Rattle.std.specs.Prelude.{◌≤◌, All, IfOk};
ghost use Rattle.samples.specs.declared.fount.Fount.{Fount};

use jtext::NoMemory;
use samples::Fount;
use std::alloc::Global;
use world::{Chan, Conn, Connected, Entry};
use world_mem::{Files, Kernels, MemWorld, Script, Sizes};

/// Kernels for so many jobs: the first has `shell` bytes on shell, and each has `others` bytes on
/// every other channel.
pub(crate) fn founts(
    alloc: Global,
    jobs: usize,
    shell: usize,
    others: usize,
) -> Result<Kernels<Fount>, NoMemory>
    ensures { IfOk result (All (λ k. Fount.latest k ≤ 0)) }
{
    let mut kernels = Kernels::new(alloc);
    for job in 0..jobs {
        let first = if job == 0 { shell } else { others };
        kernels.push(Fount::new(first, others, None))?;
    }
    Ok(kernels)
}

/// A world with these kernels, in which the calls with these numbers fail and the first so many
/// connects are refused.
pub(crate) fn world(
    alloc: Global,
    kernels: Kernels<Fount>,
    fails: &[u64],
    refusals: u32,
) -> Result<MemWorld<Fount>, NoMemory>
    requires { All (λ k. Fount.latest k ≤ 0) kernels }
{
    let mut failing = Sizes::new(alloc);
    for number in fails {
        failing.push(*number)?;
    }
    let script = Script {
        start_ms: 0,
        pieces: Sizes::new(alloc),
        fails: failing,
        refusals,
    };
    MemWorld::new(alloc, Files::new(alloc), kernels, script)
}

/// Entries of one kind in a row: what they are, the place, the limit, the moment or the size, and
/// how many.
pub(crate) type Row = (&'static str, u64, usize);

/// Whether the journal of a world has just these rows.
pub(crate) fn tells(w: &MemWorld<Fount>, rows: &[Row]) -> bool {
    let Some(entries) = w.journal() else {
        return false;
    };
    has_rows(entries.as_slice(), rows)
}

// Whether these entries are just these rows.
fn has_rows(entries: &[Entry], rows: &[Row]) -> bool {
    let mut rest = entries;
    for row in rows {
        for _ in 0..row.2 {
            let Some((entry, more)) = rest.split_first() else {
                return false;
            };
            let (what, number) = kind(entry);
            if what != row.0 || number != row.1 {
                return false;
            }
            rest = more;
        }
    }
    rest.is_empty()
}

/// How often the connection at each place gave bytes.
pub(crate) fn reads(w: &MemWorld<Fount>) -> [usize; 64] {
    match w.journal() {
        Some(entries) => reads_by_place(entries.as_slice()),
        None => [0; 64],
    }
}

fn reads_by_place(entries: &[Entry]) -> [usize; 64] {
    let mut found = [0; 64];
    for place in 0..64usize {
        found[place] = reads_in(entries, place as u64);
    }
    found
}

fn reads_in(entries: &[Entry], wanted: u64) -> usize {
    entries
        .iter()
        .filter(|entry| matches!(entry, Entry::Got { conn, .. } if place(*conn) == wanted))
        .count()
}

// What an entry is, with its place, limit, moment or size.
fn kind(entry: &Entry) -> (&'static str, u64) {
    match entry {
        Entry::Connected { conn, how, .. } => (answer(*how), place(*conn)),
        Entry::Closed { conn } => ("closed", place(*conn)),
        Entry::Got { bytes, .. } => ("got", bytes.len() as u64),
        Entry::Dry { conn, .. } => ("dry", place(*conn)),
        Entry::Waited { ms, .. } => ("waited", u64::from(*ms)),
        Entry::Moment { ms } => ("moment", *ms),
        _ => ("other", 0),
    }
}

/// What a connect answered.
pub(crate) fn answer(how: Connected) -> &'static str {
    match how {
        Connected::Begun => "begun",
        Connected::Refused => "refused",
        Connected::Failed => "failed",
    }
}

/// The place of a connection.
pub(crate) fn place(conn: Conn) -> u64 {
    let chan = match conn.chan {
        Chan::Shell => 0,
        Chan::Control => 1,
        Chan::Iopub => 2,
        Chan::Heart => 3,
    };
    4 * u64::from(conn.job) + chan
}
