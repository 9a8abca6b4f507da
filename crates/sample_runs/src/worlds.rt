//! The world of a run: what it reads, the description of a toy kernel, and a kernel for each job.
ghost use Rattle.std.specs.Prelude.{◌≡◌, ◌<◌, ◌≤◌, All, IfOk};
ghost use Rattle.toy_core.specs.Toy.{latest_of};

use crate::row::Row;
use batch_run::Limits;
use jtext::{Bytes, NoMemory, Text};
use kernel_talk::identifier;
use nbrun_top::run;
use std::alloc::Global;
use toy_core::Toy;
use world::Entry;
use world_mem::{Files, Kernels, MemWorld, Script, Sizes};

/// Where the kernel is described, and how.
pub(crate) const SPEC_PATH: &str = "/usr/local/share/jupyter/kernels/toy/kernel.json";

pub(crate) const SPEC: &str =
    "{\"argv\":[\"toy_kernel\",\"{connection_file}\"],\"display_name\":\"Toy\",\"interrupt_mode\":\"message\",\"language\":\"toy\"}";

/// The most waits of a run.
const TURNS: u64 = 100_000;

/// The kernels of two jobs, of which a run with one job starts the first.
fn kernels(alloc: Global) -> Result<Kernels<Toy>, NoMemory>
    ensures { IfOk result (All (λ toy. latest_of toy ≤ 0)) }
{
    let first = toy(alloc, 2)?;
    let second = toy(alloc, 6)?;
    let mut kernels = Kernels::new(alloc);
    kernels.push(first)?;
    kernels.push(second)?;
    Ok(kernels)
}

// A kernel that signs under the key of two random words, of which this is the first.
fn toy(alloc: Global, word: u64) -> Result<Toy, NoMemory>
    requires { word < 100 }
    ensures { IfOk result (λ toy. latest_of toy ≡ 0) }
{
    let key = identifier(alloc, word, word + 1)?;
    Toy::new(alloc, &key)
}

/// The world of a run in which the call with this number fails, where there is one.
pub fn world(alloc: Global, row: Row, fail: Option<u64>) -> Result<MemWorld<Toy>, NoMemory> {
    let files = files(alloc, row)?;
    let kernels = kernels(alloc)?;
    let mut fails = Sizes::new(alloc);
    if let Some(number) = fail {
        fails.push(number)?;
    }
    let script = Script {
        start_ms: 0,
        pieces: Sizes::new(alloc),
        fails,
        refusals: 0,
    };
    MemWorld::new(alloc, files, kernels, script)
}

fn files(alloc: Global, row: Row) -> Result<Files, NoMemory> {
    let mut files = Files::new(alloc);
    for (path, text) in row.inputs() {
        files.push((Text::of(alloc, path)?, Bytes::of(alloc, text.as_bytes())?))?;
    }
    if let Some(old) = row.old() {
        for output in row.outputs() {
            files.push((Text::of(alloc, output)?, Bytes::of(alloc, old.as_bytes())?))?;
        }
    }
    files.push((
        Text::of(alloc, SPEC_PATH)?,
        Bytes::of(alloc, SPEC.as_bytes())?,
    ))?;
    Ok(files)
}

/// Runs the program there, and answers its exit status.
pub fn status(alloc: Global, row: Row, w: &mut MemWorld<Toy>) -> Result<u8, NoMemory> {
    let mut words = Vec::new(alloc);
    for word in row.words() {
        words.push(String::from_str(alloc, word)?)?;
    }
    let limits = Limits {
        turns: TURNS,
        here: Text::of(alloc, "/")?,
    };
    Ok(run(alloc, words.as_slice(), &limits, w))
}

/// Whether each child that was started was ended after that.
pub fn ends_its_children(w: &MemWorld<Toy>) -> bool {
    let mut runs = [false; 16];
    if let Some(entries) = w.journal() {
        for entry in entries.iter() {
            match entry {
                Entry::Started { job, .. } => set(&mut runs, *job, true),
                Entry::Killed { job } => set(&mut runs, *job, false),
                _ => {}
            }
        }
    }
    !runs.contains(&true)
}

fn set(runs: &mut [bool; 16], job: u8, is_running: bool) {
    if let Some(run) = runs.get_mut(usize::from(job)) {
        *run = is_running;
    }
}
