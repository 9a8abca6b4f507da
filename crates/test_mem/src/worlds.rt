//! Worlds for the tests.
ghost use Rattle.std.specs.Prelude.{◌≡◌, ◌<◌, ◌^◌, IfOk};

use jtext::{Bytes, NoMemory, Text};
use samples::Fount;
use std::alloc::Global;
use world_mem::{Files, Kernels, MemWorld, Script, Sizes};

/// Files by rows of a path and a text.
pub(crate) fn files(alloc: Global, rows: &[(&str, &str)]) -> Result<Files, NoMemory> {
    let mut files = Files::new(alloc);
    for (path, text) in rows {
        files.push((Text::of(alloc, path)?, Bytes::of(alloc, text.as_bytes())?))?;
    }
    Ok(files)
}

/// A list of these sizes.
pub(crate) fn sizes(alloc: Global, rows: &[u64]) -> Result<Sizes, NoMemory> {
    let mut sizes = Sizes::new(alloc);
    for row in rows {
        sizes.push(*row)?;
    }
    Ok(sizes)
}

/// A script that starts at 0 and caps and refuses nothing, with these calls that fail.
pub(crate) fn plain_script(alloc: Global, fails: &[u64]) -> Result<Script, NoMemory>
    ensures { IfOk result (λ script. script.start_ms ≡ 0) }
{
    Ok(Script {
        start_ms: 0,
        pieces: Sizes::new(alloc),
        fails: sizes(alloc, fails)?,
        refusals: 0,
    })
}

/// A script that starts at a moment, with these caps and so many refusals.
pub(crate) fn script(
    alloc: Global,
    start_ms: u64,
    pieces: &[u64],
    refusals: u32,
) -> Result<Script, NoMemory>
    ensures { IfOk result (λ script. script.start_ms ≡ start_ms) }
{
    Ok(Script {
        start_ms,
        pieces: sizes(alloc, pieces)?,
        fails: Sizes::new(alloc),
        refusals,
    })
}

/// A world with these files, this script, and one kernel that hands out so many bytes on each
/// channel and ends at the moment 1,000.
pub(crate) fn world(
    alloc: Global,
    rows: &[(&str, &str)],
    bytes: usize,
    script: Script,
) -> Result<MemWorld<Fount>, NoMemory>
    requires { script.start_ms < 2 ^ 47 }
{
    let mut kernels = Kernels::new(alloc);
    kernels.push(Fount::new(bytes, bytes, Some(1000)))?;
    MemWorld::new(alloc, files(alloc, rows)?, kernels, script)
}
