//! Runs over a world in memory, in which the input stands as `in` and the output is `out`.
use batch_run::Limits;
use jtext::{Bytes, Text};
use nbrun_top::run;
use std::test::Fail;
use world_mem::{Files, Kernels, MemWorld, NullKernel, Script, Sizes};

/// A world without kernels.
pub(crate) type Quiet = MemWorld<NullKernel>;

/// A world that has the input, in which the call with this number fails.
pub(crate) fn world(rt: &HostRuntime, input: &[u8], fail: Option<u64>) -> Result<Quiet, Fail> {
    let mut files = Files::new(rt.alloc());
    add(rt, &mut files, "in", input)?;
    world_of(rt, files, fail)
}

/// Adds a file.
pub(crate) fn add(
    rt: &HostRuntime,
    files: &mut Files,
    path: &str,
    bytes: &[u8],
) -> Result<(), Fail> {
    let alloc = rt.alloc();
    files.push((Text::of(alloc, path)?, Bytes::of(alloc, bytes)?))?;
    Ok(())
}

/// A world that has these files, in which the call with this number fails.
pub(crate) fn world_of(rt: &HostRuntime, files: Files, fail: Option<u64>) -> Result<Quiet, Fail> {
    let alloc = rt.alloc();
    let mut fails = Sizes::new(alloc);
    if let Some(number) = fail {
        fails.push(number)?;
    }
    let script = Script {
        start_ms: 0,
        pieces: Sizes::new(alloc),
        fails,
        refusals: 0,
    };
    Ok(MemWorld::new(alloc, files, Kernels::new(alloc), script)?)
}

/// What `run` answers to these words, which have spaces between them.
pub(crate) fn status(rt: &HostRuntime, words: &str, w: &mut Quiet) -> Result<u8, Fail> {
    status_within(rt, words, 1 << 40, w)
}

/// What it answers with at most that many waits.
pub(crate) fn status_within(
    rt: &HostRuntime,
    words: &str,
    turns: u64,
    w: &mut Quiet,
) -> Result<u8, Fail> {
    let alloc = rt.alloc();
    let mut given = Vec::new(alloc);
    for word in words.split(' ').filter(|word| !word.is_empty()) {
        given.push(String::from_str(alloc, word)?)?;
    }
    let here = Text::of(alloc, "/")?;
    let limits = Limits { turns, here };
    Ok(run(alloc, given.as_slice(), &limits, w))
}

/// The status that it answers with at most that many waits, and what it says.
pub(crate) fn status_and_text(
    rt: &HostRuntime,
    words: &str,
    turns: u64,
    w: &mut Quiet,
) -> Result<(u8, String), Fail> {
    let code = status_within(rt, words, turns, w)?;
    let said = std::str::from_utf8(w.said().bytes()).map_err(|_| "no text")?;
    Ok((code, String::from_str(rt.alloc(), said)?))
}

/// Whether the run answers this status, says this text, and leaves these bytes at the output.
pub(crate) fn gives(
    rt: &HostRuntime,
    words: &str,
    w: &mut Quiet,
    code: u8,
    said: &str,
    output: Option<&str>,
) -> Result<bool, Fail> {
    let answered = status(rt, words, w)? == code;
    let path = Text::of(rt.alloc(), "out")?;
    let file = w.file(&path).map(|bytes| bytes.bytes());
    Ok(
        answered
            && w.said().bytes() == said.as_bytes()
            && file == output.map(|text| text.as_bytes()),
    )
}
