//! Jobs over the world in memory.
ghost use Rattle.std.specs.Prelude.{◌<◌, ◌≤◌, ◌+◌, ◌^◌, All, IfOk, IfSome, length};
ghost use Rattle.std.specs.List.{AllByRecursion};
ghost use Rattle.words.specs.Runnable.{IsRunnable};

use batch_run::{Limits, run_jobs};
use job_end::Answer;
use jtext::{Bytes, List, NoMemory, Text};
use std::alloc::Global;
use words::{Ask, Asks, Command, read};
use world::{KernelSide, World};
use world_mem::{Files, Kernels, MemWorld, Script, Sizes};

const SPEC: &str =
    "{\"argv\":[\"toy_kernel\",\"{connection_file}\"],\"display_name\":\"Toy\",\"interrupt_mode\":\"message\",\"language\":\"toy\"}";

/// The jobs of two inputs.
const JOBS: &str =
    "{\"jobs\":[{\"input\":\"in.ipynb\",\"output\":\"a.ipynb\"},{\"input\":\"in-2.ipynb\",\"output\":\"b.ipynb\"}]}";

/// Adds a file.
pub(crate) fn add(
    alloc: Global,
    files: &mut Files,
    path: &str,
    text: &str,
) -> Result<(), NoMemory> {
    files.push((Text::of(alloc, path)?, Bytes::of(alloc, text.as_bytes())?))?;
    Ok(())
}

/// A world with this input and these kernels, whose reads give at most these sizes in turn, and in
/// which the calls of these numbers fail.
pub(crate) fn world_of<K: KernelSide>(
    alloc: Global,
    input: &str,
    kernels: Kernels<K>,
    pieces: &[u64],
    fails: &[u64],
) -> Result<MemWorld<K>, NoMemory>
    requires { All (λ k. K.latest k ≤ 0) kernels }
{
    let script = Script {
        start_ms: 0,
        pieces: sizes(alloc, pieces)?,
        fails: sizes(alloc, fails)?,
        refusals: 0,
    };
    world_by(alloc, input, kernels, script)
}

/// A world with this input, under two names, a jobs file for both and these kernels, by a script.
pub(crate) fn world_by<K: KernelSide>(
    alloc: Global,
    input: &str,
    kernels: Kernels<K>,
    script: Script,
) -> Result<MemWorld<K>, NoMemory>
    requires below { script.start_ms < 2 ^ 47 }
    requires early { All (λ k. K.latest k ≤ script.start_ms) kernels }
{
    let mut files = Files::new(alloc);
    add(alloc, &mut files, "in.ipynb", input)?;
    add(alloc, &mut files, "in-2.ipynb", input)?;
    add(alloc, &mut files, "jobs.json", JOBS)?;
    spec_file(alloc, &mut files)?;
    MemWorld::new(alloc, files, kernels, script)
}

/// Adds the toy kernel's spec.
pub(crate) fn spec_file(alloc: Global, files: &mut Files) -> Result<(), NoMemory> {
    add(
        alloc,
        files,
        "/usr/local/share/jupyter/kernels/toy/kernel.json",
        SPEC,
    )
}

fn sizes(alloc: Global, numbers: &[u64]) -> Result<Sizes, NoMemory> {
    let mut sizes = Sizes::new(alloc);
    for number in numbers {
        sizes.push(*number)?;
    }
    Ok(sizes)
}

/// The job that these words ask for, which have spaces between them.
fn ask_of(alloc: Global, text: &str) -> Result<Option<Ask>, NoMemory>
    ensures { IfOk result (λ asked. IfSome asked IsRunnable) }
{
    let mut words = Vec::new(alloc);
    for word in text.split(' ') {
        words.push(String::from_str(alloc, word)?)?;
    }
    match read(alloc, words.as_slice()) {
        Ok(Command::One(ask)) => Ok(Some(ask)),
        _ => Ok(None),
    }
}

/// Runs these jobs side by side, by their numbers from the first on, with so many waits at most.
fn run_asks<W: World>(
    alloc: Global,
    w: &mut W,
    asks: Asks,
    first: u8,
    turns: u64,
) -> Result<List<Answer>, NoMemory>
    requires few { first + length asks ≤ 16 }
    requires runnable { AllByRecursion IsRunnable asks }
{
    let limits = Limits {
        turns,
        here: Text::of(alloc, "/here")?,
    };
    run_jobs(alloc, w, asks, first, &limits)
}

/// Runs the program with these words, and answers its exit status.
pub(crate) fn program<W: World>(alloc: Global, w: &mut W, words: &str) -> Result<u8, NoMemory> {
    let mut given = Vec::new(alloc);
    for word in words.split(' ') {
        given.push(String::from_str(alloc, word)?)?;
    }
    let limits = Limits {
        turns: 100_000,
        here: Text::of(alloc, "/here")?,
    };
    Ok(nbrun_top::run(alloc, given.as_slice(), &limits, w))
}

/// Runs the job of these words alone.
pub(crate) fn run<W: World>(
    alloc: Global,
    w: &mut W,
    words: &str,
) -> Result<List<Answer>, NoMemory> {
    run_within(alloc, w, words, 100_000)
}

/// Runs the job of these words alone, with so many waits at most.
pub(crate) fn run_within<W: World>(
    alloc: Global,
    w: &mut W,
    words: &str,
    turns: u64,
) -> Result<List<Answer>, NoMemory> {
    let mut asks = Asks::new(alloc);
    let Some(ask) = ask_of(alloc, words)? else {
        return Ok(List::new(alloc));
    };
    asks.push(ask)?;
    run_asks(alloc, w, asks, 0, turns)
}

/// Runs the job of these words alone, which has this number.
pub(crate) fn run_from<W: World>(
    alloc: Global,
    w: &mut W,
    words: &str,
    number: u8,
) -> Result<List<Answer>, NoMemory>
    requires { number < 16 }
{
    let mut asks = Asks::new(alloc);
    let Some(ask) = ask_of(alloc, words)? else {
        return Ok(List::new(alloc));
    };
    asks.push(ask)?;
    run_asks(alloc, w, asks, number, 100_000)
}

/// Runs the jobs of these words side by side.
pub(crate) fn run_two<W: World>(
    alloc: Global,
    w: &mut W,
    first: &str,
    second: &str,
) -> Result<List<Answer>, NoMemory> {
    let mut asks = Asks::new(alloc);
    let Some(a) = ask_of(alloc, first)? else {
        return Ok(List::new(alloc));
    };
    let Some(b) = ask_of(alloc, second)? else {
        return Ok(List::new(alloc));
    };
    asks.push(a)?;
    asks.push(b)?;
    run_asks(alloc, w, asks, 0, 100_000)
}
